// How far a participant would move from a level, and what that would gain it. Gains never rise with the level, so
// a walk stops at the first tenth that does not object.

ghost use Rattle.std.specs.Prelude.{◌≡◌, suc, ◌<◌, ◌≤◌, pos, negsuc, ◌-ℤ◌, ◌*ℤ◌, ◌≤ℤ◌, IfSome};
ghost use Rattle.book.specs.Sides.{side_of};
ghost use Rattle.market.specs.Market.{gain, gain_at, forgone_at};
ghost use Rattle.market.specs.Quoted.{prices_of};
ghost use Rattle.market.specs.Walks.{Climbed, Descended, Moderate, forgone_or};

use crate::nodal::lmp;
use crate::quote::Quote;
use book::{OfferBook, Side};
use dispatch::sided;
use network::Network;

// A participant at a price of its own, in thousandths of a cent.
#[derive(Drop)]
struct Paid<'a, B: OfferBook> {
    book: &'a B,
    participant: usize,
    // asked once, and not at each level
    side: Option<Side>,
    lmp: i64,
    ghost sides: { side_of side ≡ (B.OfferBook.meaning book.now).side participant },
    ghost least: { negsuc 32999999999 ≤ℤ lmp },
    ghost most: { lmp ≤ℤ pos 33000000000 },
}

impl<'a, B: OfferBook> Paid<'a, B> {
    // What is left of the price after a tenth's own.
    #[inline(always)]
    fn margin(&self, level: u16) -> i64
        ensures value { result ≡ self.now.lmp -ℤ (pos 1000 *ℤ (B.OfferBook.meaning self.now.book.now).price self.now.participant level) }
        ensures least { negsuc 33999999999 ≤ℤ result }
        ensures most { result ≤ℤ pos 34000000000 }
    {
        self.lmp - 1_000 * self.book.price(self.participant, level) as i64
    }

    // The gain of the tenth that ends at a level. A walk asks it at each level, so it stands in the walk's own code.
    #[inline(always)]
    fn gain(&self, level: u16) -> i64
        ensures value { result ≡ gain_at (B.OfferBook.meaning self.now.book.now) self.now.lmp self.now.participant level }
        ensures least { negsuc 33999999999 ≤ℤ result }
        ensures most { result ≤ℤ pos 34000000000 }
    {
        sided(self.side, self.margin(level))
    }

    // The two walks differ in their levels, in the sign and in where they end: one walk for both would take all three.

    // Up from a level while the next tenth objects: the level reached, and the gains on the way.
    fn climb(&self, from: u16) -> (u16, i64)
        requires { ((B.OfferBook.meaning self.now.book.now).low self.now.participant ≤ from) × (from ≤ (B.OfferBook.meaning self.now.book.now).high self.now.participant) }
        ensures { Climbed (B.OfferBook.meaning self.now.book.now) self.now.lmp self.now.participant from result.0 result.1 }
    {
        let mut total = 0;
        let high = self.book.high(self.participant);
        for level in from..high {
            let gained = self.gain(level + 1);
            if gained <= 0 {
                return (level, total);
            }
            total += gained;
        }
        (high, total)
    }

    // Down from a level while its last tenth objects: the level reached, and what is saved on the way.
    fn descend(&self, from: u16) -> (u16, i64)
        requires { ((B.OfferBook.meaning self.now.book.now).low self.now.participant ≤ from) × (from ≤ (B.OfferBook.meaning self.now.book.now).high self.now.participant) }
        ensures { Descended (B.OfferBook.meaning self.now.book.now) self.now.lmp self.now.participant from result.0 result.1 }
    {
        let mut total = 0;
        let low = self.book.low(self.participant);
        for level in (low..from).rev() {
            let saved = -self.gain(level + 1);
            if saved <= 0 {
                return (level + 1, total);
            }
            total += saved;
        }
        (low, total)
    }

    // What the participant forgoes at a level.
    fn forgone(&self, base: u16) -> i64
        requires there { self.now.participant < (B.OfferBook.meaning self.now.book.now).count }
        requires base { ((B.OfferBook.meaning self.now.book.now).low self.now.participant ≤ base) × (base ≤ (B.OfferBook.meaning self.now.book.now).high self.now.participant) }
        ensures value { result ≡ forgone_at (B.OfferBook.meaning self.now.book.now) self.now.lmp self.now.participant base }
        ensures range { Moderate result }
    {
        let (top, climbed) = self.climb(base);
        let (_, saved) = self.descend(top);
        climbed + saved
    }
}

// `book` and `network` stay two parameters here and in the crates above: each clause speaks of one meaning or of both,
// and a struct of two references would make every clause longer (`with.now.book.now` for `book.now`).

// The forgone gain of a participant at a base point, in millionths of a dollar per hour: the greatest sum of gains up
// to any level within its limits, less that up to the base point. None where there is no such participant, or the
// base point lies outside its limits.
pub fn forgone<B: OfferBook, N: Network>(
    book: &B,
    network: &N,
    quote: &Quote,
    participant: usize,
    base: u16,
) -> Option<i64>
    ensures value { result ≡ forgone_or (B.OfferBook.meaning book.now) (N.Network.meaning network.now) (prices_of quote.now) participant base }
    ensures range { IfSome result Moderate }
{
    if participant < book.count()
        && book.low(participant) <= base
        && base <= book.high(participant)
    {
        let price = lmp(book, network, quote, participant);
        let paid = Paid {
            book,
            participant,
            side: book.side(participant),
            lmp: price,
        };
        Some(paid.forgone(base))
    } else {
        None
    }
}

// The gain of a participant's tenth that ends at a level, in millionths of a dollar per hour.
pub fn tenth_gain<B: OfferBook, N: Network>(
    book: &B,
    network: &N,
    quote: &Quote,
    participant: usize,
    level: u16,
) -> i64
    ensures { result ≡ gain (B.OfferBook.meaning book.now) (N.Network.meaning network.now) (prices_of quote.now) participant level }
{
    let paid = Paid {
        book,
        participant,
        side: book.side(participant),
        lmp: lmp(book, network, quote, participant),
    };
    paid.gain(level)
}
