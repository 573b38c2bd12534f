// Base points of a proposal that make a feasible dispatch.

ghost use Rattle.std.specs.Prelude.{◌≡◌, length, Some, None, MatchResult};
ghost use Rattle.dispatch.specs.Base.{base_of};
ghost use Rattle.feasible.specs.Stages.{held_to};
ghost use Rattle.checks.specs.Causes.{dispatch_fault, network_fault};
ghost use Rattle.checks.specs.Pointed.{pointed};

use crate::limiting::dispatch_of;
use book::OfferBook;
use dispatch::Dispatch;
use fault::{Cause, Fault};
use feasible::{Step, balanced, first_overloaded};
use network::Network;

// The balance is met, and no observed line carries more than its limit. Limits were looked at before there was a dispatch:
// by `infeasible` they would be looked at again.
fn check_network<B: OfferBook, N: Network>(
    book: &B,
    network: &N,
    step: &Step,
    dispatch: &Dispatch,
) -> Result<(), Fault>
    ensures { MatchResult result (λ _. network_fault (B.OfferBook.meaning book.now) (N.Network.meaning network.now) (held_to step.now) (base_of dispatch.now) ≡ None) (λ f. network_fault (B.OfferBook.meaning book.now) (N.Network.meaning network.now) (held_to step.now) (base_of dispatch.now) ≡ Some f) }
{
    if !balanced(book, dispatch, step) {
        return Err(Fault::new(Cause::Balance, 0));
    }
    match first_overloaded(book, network, dispatch, step) {
        Some(place) => Err(Fault::new(Cause::FlowLimit, place)),
        None => Ok(()),
    }
}

// The dispatch of base points, one for each participant, or the first fault that keeps it from being feasible.
pub(crate) fn feasible_of<B: OfferBook, N: Network>(
    book: &B,
    network: &N,
    step: &Step,
    points: &[u16],
) -> Result<Dispatch, Fault>
    requires { length points.now ≡ (B.OfferBook.meaning book.now).count }
    ensures { MatchResult result (λ d. (dispatch_fault (B.OfferBook.meaning book.now) (N.Network.meaning network.now) (held_to step.now) (pointed points.now) ≡ None) × (base_of d ≡ pointed points.now)) (λ f. dispatch_fault (B.OfferBook.meaning book.now) (N.Network.meaning network.now) (held_to step.now) (pointed points.now) ≡ Some f) }
{
    let dispatch = dispatch_of(book, points)?;
    check_network(book, network, step, &dispatch)?;
    Ok(dispatch)
}
