// What all participants forgo.

ghost use Rattle.std.specs.Prelude.{◌<◌, MatchOption};
ghost use Rattle.dispatch.specs.Base.{base_of};
ghost use Rattle.market.specs.Quoted.{prices_of};
ghost use Rattle.feasible.specs.Checks.{Within};
ghost use Rattle.feasible.specs.Places.{Everywhere};
ghost use Rattle.gap.specs.Forgoing.{Part, Total};

use book::OfferBook;
use dispatch::Dispatch;
use market::{Quote, forgone};
use network::Network;

// What a participant forgoes, unless its base point lies outside its limits.
fn part<B: OfferBook, N: Network>(
    book: &B,
    network: &N,
    quote: &Quote,
    dispatch: &Dispatch,
    participant: usize,
) -> Option<i64>
    requires { participant < (B.OfferBook.meaning book.now).count }
    ensures { MatchOption result (Within (B.OfferBook.meaning book.now) (base_of dispatch.now) participant → ⊥) (Part (B.OfferBook.meaning book.now) (N.Network.meaning network.now) (prices_of quote.now) (base_of dispatch.now) participant) }
{
    forgone(
        book,
        network,
        quote,
        participant,
        dispatch.base(participant),
    )
}

// What all participants forgo, unless a base point lies outside its limits.
pub(crate) fn forgoings<B: OfferBook, N: Network>(
    book: &B,
    network: &N,
    quote: &Quote,
    dispatch: &Dispatch,
) -> Option<i64>
    ensures { MatchOption result (Everywhere (B.OfferBook.meaning book.now).count (Within (B.OfferBook.meaning book.now) (base_of dispatch.now)) → ⊥) (Total (B.OfferBook.meaning book.now) (N.Network.meaning network.now) (prices_of quote.now) (base_of dispatch.now) (B.OfferBook.meaning book.now).count) }
{
    let mut total = 0;
    for participant in 0..book.count() {
        total += part(book, network, quote, dispatch, participant)?;
    }
    Some(total)
}
