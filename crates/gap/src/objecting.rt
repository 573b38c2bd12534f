// Which tenths of a participant object to a dispatch at given prices: the last one that it runs, where leaving it out
// would gain, and the next one, where running it would.

ghost use Rattle.std.specs.Prelude.{◌<◌, Decides};
ghost use Rattle.dispatch.specs.Base.{base_of};
ghost use Rattle.market.specs.Market.{LastObjects, NextObjects};
ghost use Rattle.market.specs.Quoted.{prices_of};

use book::OfferBook;
use dispatch::Dispatch;
use market::{Quote, tenth_gain};
use network::Network;

#[derive(Clone, Copy, Debug, Eq, PartialEq)]
pub struct Objections {
    pub last: bool,
    pub next: bool,
}

// The two tests differ in the limit, the tenth and the sign: one function for both would take all three. Prices and
// dispatch stay two parameters, as book and network do: each is asked by itself below.
fn last_objects<B: OfferBook, N: Network>(
    book: &B,
    network: &N,
    quote: &Quote,
    dispatch: &Dispatch,
    participant: usize,
) -> bool
    ensures { Decides result (LastObjects (B.OfferBook.meaning book.now) (N.Network.meaning network.now) (prices_of quote.now) (base_of dispatch.now) participant) }
{
    let base = dispatch.base(participant);
    book.low(participant) < base && tenth_gain(book, network, quote, participant, base) < 0
}

fn next_objects<B: OfferBook, N: Network>(
    book: &B,
    network: &N,
    quote: &Quote,
    dispatch: &Dispatch,
    participant: usize,
) -> bool
    ensures { Decides result (NextObjects (B.OfferBook.meaning book.now) (N.Network.meaning network.now) (prices_of quote.now) (base_of dispatch.now) participant) }
{
    let base = dispatch.base(participant);
    base < book.high(participant) && tenth_gain(book, network, quote, participant, base + 1) > 0
}

// Nothing objects of a participant that is not there.
pub fn objection<B: OfferBook, N: Network>(
    book: &B,
    network: &N,
    quote: &Quote,
    dispatch: &Dispatch,
    participant: usize,
) -> Objections
    ensures last { Decides result.last ((participant < (B.OfferBook.meaning book.now).count) × LastObjects (B.OfferBook.meaning book.now) (N.Network.meaning network.now) (prices_of quote.now) (base_of dispatch.now) participant) }
    ensures next { Decides result.next ((participant < (B.OfferBook.meaning book.now).count) × NextObjects (B.OfferBook.meaning book.now) (N.Network.meaning network.now) (prices_of quote.now) (base_of dispatch.now) participant) }
{
    let there = participant < book.count();
    Objections {
        last: there && last_objects(book, network, quote, dispatch, participant),
        next: there && next_objects(book, network, quote, dispatch, participant),
    }
}
