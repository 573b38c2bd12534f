// What a dispatch is worth.

ghost use Rattle.std.specs.Prelude.{◌≡◌, ◌≤◌, pos, negsuc, ◌*ℤ◌, ◌≤ℤ◌};
ghost use Rattle.dispatch.specs.Base.{base_of};
ghost use Rattle.market.specs.Laws.{Duality, Exactness};
ghost use Rattle.market.specs.Market.{cost, worth};

use book::OfferBook;
use dispatch::{Dispatch, sided};

// The prices of the tenths from above low up to a level.
fn cost<B: OfferBook>(book: &B, participant: usize, level: u16) -> i64
    requires { level ≤ 20000 }
    ensures value { result ≡ cost (B.OfferBook.meaning book.now) participant level }
    ensures least { negsuc 19999999999 ≤ℤ result }
    ensures most { result ≤ℤ pos 20000000000 }
{
    let mut total = 0;
    for below in book.low(participant)..level {
        total += book.price(participant, below + 1) as i64;
    }
    total
}

// The loads' prices less the generators' prices, over all tenths above low up to the base point, in
// thousandths of a dollar per hour. It is what the gap of a dispatch bounds.
pub fn worth<B: OfferBook>(book: &B, dispatch: &Dispatch) -> i64
    ensures value { result ≡ worth (B.OfferBook.meaning book.now) (base_of dispatch.now) }
    ensures duality { Duality }
    ensures exactness { Exactness }
{
    let mut total = 0;
    for participant in 0..book.count() {
        let cost = cost(book, participant, dispatch.base(participant));
        total -= sided(book.side(participant), cost);
    }
    total
}
