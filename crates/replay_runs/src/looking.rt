// A step of a run is looked up for its listing.

ghost use Rattle.std.specs.Prelude.{◌≡◌, Some, MatchOption, MatchResult};
ghost use Rattle.fault.specs.declared.cause.Cause.TheVariants.{NotHeld};
ghost use Rattle.fault.specs.Rules.{fault};
ghost use Rattle.feasible.specs.Stages.{stage_named};
ghost use Rattle.run.specs.View.{state_of};
ghost use Rattle.replay_runs.specs.Listing.{Lists, Unlisted};

use crate::listing::Listed;
use book::OfferBook;
use fault::{Cause, Fault};
use feasible::Stage;
use network::Network;
use run::Run;

// What is held as a step, unless nothing is.
fn held_as<B: OfferBook, N: Network>(run: &mut Run<B, N>, stage: Stage) -> Option<Listed>
    ensures { MatchOption result (Unlisted (state_of run.old) (Some stage)) (Lists (B.OfferBook.meaning run.old.book.book) (N.Network.meaning run.old.network) (state_of run.old) (Some stage)) }
{
    Some(Listed {
        held: run.held(stage)?,
        worth: run.worth(stage)?,
    })
}

// What is held as the step of this number, or number 26 where nothing is.
pub(crate) fn look_up<B: OfferBook, N: Network>(
    run: &mut Run<B, N>,
    step: u8,
) -> Result<Listed, Fault>
    ensures { MatchResult result (Lists (B.OfferBook.meaning run.old.book.book) (N.Network.meaning run.old.network) (state_of run.old) (stage_named step)) (λ f. (f ≡ fault NotHeld 0) × Unlisted (state_of run.old) (stage_named step)) }
{
    Stage::try_from(step)
        .ok()
        .and_then(|stage| held_as(run, stage))
        .ok_or(Fault::new(Cause::NotHeld, 0))
}
