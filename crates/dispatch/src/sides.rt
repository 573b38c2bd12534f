// An amount counted by a participant's side.

ghost use Rattle.std.specs.Prelude.{◌≡◌, ℕ, pos, negsuc, ◌*ℤ◌, neg_ℤ, ◌≤ℤ◌};
ghost use Rattle.book.specs.Sides.{side_of};

use book::Side;

// A generator's amount as it is, a load's turned, and nothing where nobody is. The one amount whose opposite is too
// great for its type is turned to the greatest.
pub fn sided(side: Option<Side>, amount: i64) -> i64
    ensures value { negsuc 9223372036854775806 ≤ℤ amount → result ≡ side_of side *ℤ amount }
    ensures within { (most : ℕ) → neg_ℤ (pos most) ≤ℤ amount → amount ≤ℤ pos most → (neg_ℤ (pos most) ≤ℤ result) × (result ≤ℤ pos most) }
{
    match side {
        Some(Side::Generator) => amount,
        Some(Side::Load) => amount.saturating_neg(),
        None => 0,
    }
}
