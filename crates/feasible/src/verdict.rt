// The checks of a dispatch in their order.

ghost use Rattle.std.specs.Prelude.{MatchResult};
ghost use Rattle.dispatch.specs.Base.{base_of};
ghost use Rattle.market.specs.Market.{Feasible};
ghost use Rattle.feasible.specs.Failing.{Fails};
ghost use Rattle.feasible.specs.Stages.{held_to};

use crate::balancing::balanced;
use crate::outside::first_outside;
use crate::overload::first_overloaded;
use crate::reason::Infeasible;
use crate::step::Step;
use book::OfferBook;
use dispatch::Dispatch;
use network::Network;

// Why a dispatch is not feasible for a step: limits before balance before flows, and each at the first place.
pub fn infeasible<B: OfferBook, N: Network>(
    book: &B,
    network: &N,
    dispatch: &Dispatch,
    step: &Step,
) -> Result<(), Infeasible>
    ensures { MatchResult result (λ _. Feasible (B.OfferBook.meaning book.now) (N.Network.meaning network.now) (held_to step.now) (base_of dispatch.now)) (Fails (B.OfferBook.meaning book.now) (N.Network.meaning network.now) (held_to step.now) (base_of dispatch.now)) }
{
    if let Some(participant) = first_outside(book, dispatch) {
        return Err(Infeasible::OutsideLimits(participant));
    }
    if !balanced(book, dispatch, step) {
        return Err(Infeasible::OutOfBalance);
    }
    match first_overloaded(book, network, dispatch, step) {
        Some(line) => Err(Infeasible::Overloaded(line)),
        None => Ok(()),
    }
}
