// The house book answers the questions of an offer book.

ghost use Rattle.house.specs.House.{meaning_of, member_of, nobody};
ghost use Rattle.std.specs.Prelude.{◌≡◌, ◌<◌, ◌≤◌, MatchOption, slice_index_or};
ghost use Rattle.book.proofs.Gathered.{gathered_lawful};
ghost use Rattle.house.specs.HouseOffersLemmas.{fair};
ghost use Rattle.std.proofs.Common.{rules};

use crate::house::HouseBook;
use crate::unit::Unit;
use book::{OfferBook, Side};

impl HouseBook {
    // The unit of a participant.
    fn unit(&self, participant: usize) -> Option<&Unit>
        ensures { MatchOption result (self.now.units.count ≤ participant) (λ unit. (participant < self.now.units.count) × (unit.now ≡ slice_index_or self.now.units.items participant nobody)) }
    {
        self.units.get(participant)
    }
}

impl OfferBook for HouseBook {
    ghost meaning = { meaning_of };

    ghost lawful = { λ b. gathered_lawful b.units.count (λ i. member_of (slice_index_or b.units.items i nobody)) b.few (λ i h. fair (slice_index_or b.units.items i nobody)) };

    ghost few = { Prim.search rules };

    ghost buses = { Prim.search rules };

    ghost limits = { Prim.search rules };

    ghost highest = { Prim.search rules };

    ghost readings = { Prim.search rules };

    ghost least = { Prim.search rules };

    ghost most = { Prim.search rules };

    fn count(&self) -> usize {
        self.units.count
    }

    fn bus(&self, participant: usize) -> u8 {
        self.unit(participant).map_or(0, |unit| unit.bus)
    }

    fn side(&self, participant: usize) -> Option<Side> {
        self.unit(participant).map(|unit| unit.side)
    }

    fn low(&self, participant: usize) -> u16 {
        self.unit(participant).map_or(0, |unit| unit.low)
    }

    fn high(&self, participant: usize) -> u16 {
        self.unit(participant).map_or(0, |unit| unit.high)
    }

    fn reading(&self, participant: usize) -> u16 {
        self.unit(participant).map_or(0, |unit| unit.reading)
    }

    fn price(&self, participant: usize, level: u16) -> i32 {
        self.unit(participant).map_or(0, |unit| unit.price(level))
    }
}
