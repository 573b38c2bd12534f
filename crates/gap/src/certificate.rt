// The gap, and what it certifies.

ghost use Rattle.std.specs.Option.{MatchOption};
ghost use Rattle.dispatch.specs.Base.{base_of};
ghost use Rattle.market.specs.Quoted.{prices_of};
ghost use Rattle.feasible.specs.Checks.{Within};
ghost use Rattle.feasible.specs.Places.{Everywhere};
ghost use Rattle.feasible.specs.Stages.{held_to};
ghost use Rattle.gap.specs.Certified.{Certified};

use crate::forgoing::forgoings;
use crate::slack::slacks;
use book::OfferBook;
use dispatch::{Dispatch, injections_of};
use feasible::Step;
use market::Quote;
use network::Network;

// All forgone gains and, over observed lines, shadow price times what the limit leaves, in millionths of a dollar per
// hour. No feasible dispatch is worth more than a feasible one by over its gap. None where a base point lies outside
// its limits.
pub fn gap<B: OfferBook, N: Network>(
    book: &B,
    network: &N,
    step: &Step,
    quote: &Quote,
    dispatch: &Dispatch,
) -> Option<i64>
    ensures { MatchOption result (Everywhere (B.OfferBook.meaning book.now).count (Within (B.OfferBook.meaning book.now) (base_of dispatch.now)) → ⊥) (Certified (B.OfferBook.meaning book.now) (N.Network.meaning network.now) (held_to step.now) (prices_of quote.now) (base_of dispatch.now)) }
{
    let forgone = forgoings(book, network, quote, dispatch)?;
    let sheet = injections_of(book, dispatch);
    Some(forgone + slacks(network, &sheet, step, quote))
}
