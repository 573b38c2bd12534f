// A proposal is examined, and then judged by its gap.

ghost use Rattle.std.specs.Prelude.{◌≡◌, pos, Some, None, MatchResult, int_le};
ghost use Rattle.feasible.specs.Stages.{held_to};
ghost use Rattle.checks.specs.Causes.{examined_fault, judged_fault};
ghost use Rattle.checks.specs.Proposed.{held_of, weighed};

use crate::forming::form_of;
use crate::held::Held;
use crate::placing::feasible_of;
use book::OfferBook;
use calls::Proposal;
use fault::{Cause, Fault};
use feasible::Step;
use gap::gap;
use network::Network;

// What a proposal would be held as in a step, with its gap, or the first fault of its lists, prices and base points.
pub fn examine<B: OfferBook, N: Network>(
    book: &B,
    network: &N,
    step: &Step,
    proposal: &Proposal,
) -> Result<Held, Fault>
    ensures { MatchResult result (λ h. (examined_fault (B.OfferBook.meaning book.now) (N.Network.meaning network.now) (held_to step.now) proposal.now ≡ None) × (held_of h ≡ weighed (B.OfferBook.meaning book.now) (N.Network.meaning network.now) (held_to step.now) proposal.now)) (λ f. examined_fault (B.OfferBook.meaning book.now) (N.Network.meaning network.now) (held_to step.now) proposal.now ≡ Some f) }
{
    let quote = form_of(book, network, step, proposal)?;
    let dispatch = feasible_of(book, network, step, proposal.base.as_slice())?;
    match gap(book, network, step, &quote, &dispatch) {
        Some(gap) => Ok(Held {
            quote,
            dispatch,
            gap,
        }),
        None => unreachable(),
    }
}

fn within(gap: i64, tolerance: u64) -> bool
    ensures { result ≡ int_le gap (pos tolerance) }
{
    gap <= 0 || gap as u64 <= tolerance
}

// The same, and a gap over the tolerance is a fault too.
pub fn judge<B: OfferBook, N: Network>(
    book: &B,
    network: &N,
    step: &Step,
    tolerance: u64,
    proposal: &Proposal,
) -> Result<Held, Fault>
    ensures { MatchResult result (λ h. (judged_fault (B.OfferBook.meaning book.now) (N.Network.meaning network.now) (held_to step.now) tolerance proposal.now ≡ None) × (held_of h ≡ weighed (B.OfferBook.meaning book.now) (N.Network.meaning network.now) (held_to step.now) proposal.now)) (λ f. judged_fault (B.OfferBook.meaning book.now) (N.Network.meaning network.now) (held_to step.now) tolerance proposal.now ≡ Some f) }
{
    let held = examine(book, network, step, proposal)?;
    if within(held.gap, tolerance) {
        Ok(held)
    } else {
        Err(Fault::new(Cause::GapTolerance, 0))
    }
}
