// A proposal is weighed in the step that it names, at the prices of the book, and nothing is held of it.

ghost use Rattle.std.specs.Prelude.{◌≡◌, Some, MatchResult};
ghost use Rattle.feasible.specs.Stages.{stage_named};
ghost use Rattle.replay_runs.specs.Weighing.{weigh_fault, Weighs};

use book::OfferBook;
use calls::Proposal;
use checks::{Held, examine};
use fault::Fault;
use feasible::{Constraints, Stage, Step};
use network::Network;

// What the proposal would be held as, with its gap, or its first fault.
pub(crate) fn weigh<B: OfferBook, N: Network>(
    book: &B,
    network: &N,
    constraints: &Constraints,
    proposal: &Proposal,
) -> Result<Held, Fault>
    ensures { MatchResult result (Weighs (B.OfferBook.meaning book.now) (N.Network.meaning network.now) constraints.now proposal.now (stage_named proposal.now.step)) (λ f. weigh_fault (B.OfferBook.meaning book.now) (N.Network.meaning network.now) constraints.now proposal.now (stage_named proposal.now.step) ≡ Some f) }
{
    let step = Step {
        constraints: *constraints,
        stage: Stage::try_from(proposal.step)?,
    };
    examine(book, network, &step, proposal)
}
