// Units are made from rows, and asked.

ghost use Rattle.std.specs.Prelude.{◌≡◌, Ok, Err, MatchResult};
ghost use Rattle.book.specs.Sides.{sign_of};
ghost use Rattle.rows.specs.Rules.{Lawful};
ghost use Rattle.rows.specs.Classes.{class_of};
ghost use Rattle.house.specs.House.{unit_price};
ghost use Rattle.house.specs.Unit.{Stands, side_of, row_reading};

use crate::unit::Unit;
use book::Side;
use curve::Curve;
use fault::Fault;
use rows::{Class, OfferCap, Row};

// Neither type is of this crate, so this is no `From`.
fn side_of(class: Class) -> Side
    ensures { sign_of result ≡ side_of class }
{
    match class {
        Class::Thermal | Class::Renewable | Class::Committed => Side::Generator,
        Class::Load => Side::Load,
    }
}

fn reading_of(class: Class, row: &Row) -> u16
    requires { class_of row.now.letter ≡ Ok class }
    ensures { result ≡ row_reading row.now }
{
    match class {
        Class::Thermal | Class::Renewable | Class::Committed => 0,
        Class::Load => row.reading,
    }
}

impl Unit {
    // What stands where no participant is.
    pub(crate) fn nobody() -> Unit {
        Unit {
            bus: 0,
            side: Side::Generator,
            low: 0,
            high: 0,
            reading: 0,
            curve: Curve::empty(),
        }
    }

    // The unit of a row that breaks no rule.
    pub(crate) fn of(offer_cap: OfferCap, row: &Row) -> Result<Unit, Fault>
        requires { Lawful offer_cap.cents row.now }
        ensures { MatchResult result (λ u. Stands offer_cap.cents row.now u) (λ _. ⊥) }
    {
        let class = Class::try_from(row.letter)?;
        let curve = Curve::complete(offer_cap, row)?;
        let reading = reading_of(class, row);
        Ok(Unit {
            bus: row.bus,
            side: side_of(class),
            low: row.ldl,
            high: row.hdl,
            reading,
            curve,
        })
    }

    // The price of the tenth that ends at `level`, where the unit may be dispatched.
    pub(crate) fn price(&self, level: u16) -> i32
        ensures { result ≡ unit_price self.now level }
    {
        if self.low < level && level <= self.high {
            self.curve.price(level)
        } else {
            0
        }
    }
}
