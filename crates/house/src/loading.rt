// A house book is loaded from an offer cap and rows.

ghost use Rattle.std.specs.Prelude.{◌≡◌, ℕ, ◌<◌, ◌≤◌, length, Some, None, MatchResult, slice_index_or};
ghost use Rattle.rows.specs.Rules.{Lawful, rows_fault};
ghost use Rattle.house.specs.House.{blank, booked, meaning_of, nobody};
ghost use Rattle.house.specs.Unit.{Stands};

use crate::house::HouseBook;
use crate::unit::Unit;
use fault::Fault;
use given::Given;
use rows::{OfferCap, Row, check_rows};

// The units of rows that break no rule.
fn units_of(offer_cap: OfferCap, rows: &[Row]) -> Result<Given<Unit, 64>, Fault>
    requires few { length rows.now ≤ 64 }
    requires lawful { (i : ℕ) (d : Row) → i < length rows.now → Lawful offer_cap.cents (slice_index_or rows.now i d) }
    ensures { MatchResult result (λ us. (us.count ≡ length rows.now) × ((i : ℕ) → i < length rows.now → Stands offer_cap.cents (slice_index_or rows.now i blank) (slice_index_or us.items i nobody))) (λ _. ⊥) }
{
    let mut units = Given::new(Unit::nobody());
    for row in rows {
        units.push(Unit::of(offer_cap, row)?);
    }
    Ok(units)
}

impl HouseBook {
    // The book of the rows, or the first fault: by number, and within a number by row.
    pub fn load(cents: u32, rows: &[Row]) -> Result<HouseBook, Fault>
        ensures { MatchResult result (λ b. (rows_fault cents rows.now ≡ None) × (meaning_of b ≡ booked cents rows.now)) (λ f. rows_fault cents rows.now ≡ Some f) }
    {
        let offer_cap = check_rows(cents, rows)?;
        let units = units_of(offer_cap, rows)?;
        Ok(HouseBook { units })
    }
}
