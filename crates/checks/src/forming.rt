// Lists and prices of a proposal that can be judged.

ghost use Rattle.std.specs.Prelude.{◌≡◌, Some, None, MatchResult};
ghost use Rattle.market.specs.Quoted.{prices_of};
ghost use Rattle.feasible.specs.Stages.{held_to};
ghost use Rattle.checks.specs.Causes.{form_fault};
ghost use Rattle.checks.specs.Proposed.{quoted};

use crate::listing::check_counts;
use crate::observing::first_unobserved;
use crate::quoting::quote_of;
use book::OfferBook;
use calls::Proposal;
use fault::{Cause, Fault};
use feasible::Step;
use market::Quote;
use network::Network;

// The quote of a proposal, or the first fault of its lists and prices.
pub(crate) fn form_of<B: OfferBook, N: Network>(
    book: &B,
    network: &N,
    step: &Step,
    proposal: &Proposal,
) -> Result<Quote, Fault>
    ensures { MatchResult result (λ q. (form_fault (B.OfferBook.meaning book.now) (N.Network.meaning network.now) (held_to step.now) proposal.now ≡ None) × (prices_of q ≡ quoted proposal.now)) (λ f. form_fault (B.OfferBook.meaning book.now) (N.Network.meaning network.now) (held_to step.now) proposal.now ≡ Some f) }
{
    check_counts(book, network, proposal)?;
    let quote = quote_of(proposal)?;
    match first_unobserved(network, step, &quote) {
        Some(place) => Err(Fault::new(Cause::UnobservedPrice, place)),
        None => Ok(quote),
    }
}
