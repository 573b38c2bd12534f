// What is set for one line.

ghost use Rattle.std.specs.Prelude.{◌≤◌};

// The limit in tenths, and whether the line is competitive.
#[derive(Clone, Copy)]
pub struct Limit {
    pub(crate) amount: u32,
    pub(crate) competitive: bool,
    ghost most: { amount ≤ 1000000 },
}
