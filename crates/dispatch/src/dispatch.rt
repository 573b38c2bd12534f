// Base points with their bound in the type.

ghost use Rattle.std.specs.Prelude.{ℕ, ◌≤◌, slice_index};
ghost use Rattle.given.specs.Kept.{kept};

use given::Given;

// One base point for each of up to 64 participants, in tenths, each at most 20,000.
#[derive(Clone, Copy)]
pub struct Dispatch {
    pub(crate) base: Given<u16, 64>,
    ghost most: { ((i : ℕ) → slice_index (kept base.count base.items) i ≤ 20000) },
}
