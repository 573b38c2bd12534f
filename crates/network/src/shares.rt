// The shares of one line, one number a bus, with their bound in the type.

ghost use Rattle.std.specs.Prelude.{◌≡◌, ℕ, length, pos, ◌≤ℤ◌, slice_index_or};
ghost use Rattle.network.specs.Grid.{least_share, most_share};

#[derive(Clone, Copy)]
pub struct Shares {
    pub(crate) at: [i16; 64],
    ghost buses: { length at ≡ 64 },
    ghost least: { ((b : ℕ) → least_share ≤ℤ slice_index_or at b (pos 0)) },
    ghost most: { ((b : ℕ) → slice_index_or at b (pos 0) ≤ℤ most_share) },
}
