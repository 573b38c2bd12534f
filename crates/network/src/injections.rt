// A sheet of injections, one number a bus. The bound of each is in the type, so that no sum of flows
// can overflow and no network asks its caller for it.

ghost use Rattle.std.specs.Prelude.{◌≡◌, ℕ, length, pos, negsuc, ◌≤ℤ◌, slice_index_or};

// Tenths at each of 64 buses, each within ±1,280,000.
#[derive(Clone, Copy)]
pub struct Injections {
    pub(crate) at: [i32; 64],
    ghost buses: { length at ≡ 64 },
    ghost least: { ((b : ℕ) → negsuc 1279999 ≤ℤ slice_index_or at b (pos 0)) },
    ghost most: { ((b : ℕ) → slice_index_or at b (pos 0) ≤ℤ pos 1280000) },
}

// No bus of a sheet, or an amount that a sheet cannot hold.
#[derive(Clone, Copy, Debug, Eq, PartialEq)]
pub struct NotHeld;
