// The prices that a proposal quotes, with their ranges in the type.

ghost use Rattle.std.specs.Prelude.{ℕ, ◌≤◌, pos, negsuc, ◌≤ℤ◌, slice_index};
ghost use Rattle.given.specs.Kept.{kept};

use given::Given;

// A system price within ±1,000,000 cents and a shadow price from 0 to 1,000,000 for each of up to 32 lines.
#[derive(Clone, Copy)]
pub struct Quote {
    pub(crate) system: i32,
    pub(crate) shadow: Given<u32, 32>,
    ghost least: { negsuc 999999 ≤ℤ system },
    ghost most: { system ≤ℤ pos 1000000 },
    ghost shadows: { ((k : ℕ) → slice_index (kept shadow.count shadow.items) k ≤ 1000000) },
}
