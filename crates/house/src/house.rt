// The book itself: a table of units.

ghost use Rattle.std.specs.Prelude.{◌≤◌};

use crate::unit::Unit;
use given::Given;

// At most 64 participants, in fixed memory.
#[derive(Clone, Copy)]
pub struct HouseBook {
    pub(crate) units: Given<Unit, 64>,
    ghost few: { units.count ≤ 64 },
}
