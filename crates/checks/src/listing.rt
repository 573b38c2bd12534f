// A proposal has a shadow price for each line, and a base point for each participant.

ghost use Rattle.std.specs.Prelude.{◌≡◌, Some, None, MatchResult};
ghost use Rattle.checks.specs.Causes.{count_fault};

use book::OfferBook;
use calls::Proposal;
use fault::{Cause, Fault};
use network::Network;

pub(crate) fn check_counts<B: OfferBook, N: Network>(
    book: &B,
    network: &N,
    proposal: &Proposal,
) -> Result<(), Fault>
    ensures { MatchResult result (λ _. count_fault (B.OfferBook.meaning book.now) (N.Network.meaning network.now) proposal.now ≡ None) (λ f. count_fault (B.OfferBook.meaning book.now) (N.Network.meaning network.now) proposal.now ≡ Some f) }
{
    if proposal.shadow.count == network.lines() && proposal.base.count == book.count() {
        Ok(())
    } else {
        Err(Fault::new(Cause::ListLength, 0))
    }
}
