// The layer answers the questions of an offer book from the book below and its table.

ghost use Rattle.std.specs.Prelude.{◌≡◌};
ghost use Rattle.bounded.specs.Kept.{table_lawful};
ghost use Rattle.bounded.specs.Mitigation.{bites, layered};
ghost use Rattle.bounded.specs.Tabled.{layer_of};
ghost use Rattle.std.proofs.Common.{rules};

use crate::bounded::Bounded;
use book::{OfferBook, Side, is_generator};

// Whether the participant is a generator that has a price at this level.
fn bites<B: OfferBook>(book: &B, participant: usize, level: u16) -> bool
    ensures { result ≡ bites (B.OfferBook.meaning book.now) participant level }
{
    is_generator(book.side(participant))
        && book.low(participant) < level
        && level <= book.high(participant)
}

impl<B: OfferBook> OfferBook for Bounded<B> {
    ghost meaning = { λ s. layered (B.OfferBook.meaning s.book) (layer_of s.table) };

    ghost lawful = { λ s. table_lawful (B.OfferBook.meaning s.book) s.table (B.OfferBook.lawful s.book) };

    ghost few = { Prim.search rules };

    ghost buses = { Prim.search rules };

    ghost limits = { Prim.search rules };

    ghost highest = { Prim.search rules };

    ghost readings = { Prim.search rules };

    ghost least = { λ s. (table_lawful (B.OfferBook.meaning s.book) s.table (B.OfferBook.lawful s.book)).least };

    ghost most = { λ s. (table_lawful (B.OfferBook.meaning s.book) s.table (B.OfferBook.lawful s.book)).most };

    fn count(&self) -> usize {
        self.book.count()
    }

    fn bus(&self, participant: usize) -> u8 {
        self.book.bus(participant)
    }

    fn side(&self, participant: usize) -> Option<Side> {
        self.book.side(participant)
    }

    fn low(&self, participant: usize) -> u16 {
        self.book.low(participant)
    }

    fn high(&self, participant: usize) -> u16 {
        self.book.high(participant)
    }

    fn reading(&self, participant: usize) -> u16 {
        self.book.reading(participant)
    }

    fn price(&self, participant: usize, level: u16) -> i32 {
        let price = self.book.price(participant, level);
        if bites(&self.book, participant, level) {
            self.table.apply(participant, price)
        } else {
            price
        }
    }
}
