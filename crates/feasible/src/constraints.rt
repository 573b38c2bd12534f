// What a dispatch is held to.

ghost use Rattle.std.specs.Prelude.{◌≡◌, ◌≤◌, length};

use crate::limit::Limit;

// The requirement in tenths, and a limit for each of 32 lines.
#[derive(Clone, Copy)]
pub struct Constraints {
    pub(crate) requirement: u32,
    pub(crate) lines: [Limit; 32],
    ghost most: { requirement ≤ 2000000 },
    ghost count: { length lines ≡ 32 },
}
