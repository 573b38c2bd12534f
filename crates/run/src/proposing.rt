// A proposal for the first or the second step.

ghost use Rattle.std.specs.Prelude.{◌≡◌};
ghost use Rattle.calls.specs.declared.call.Call.TheVariants.{Propose};
ghost use Rattle.run.specs.Called.{Called};
ghost use Rattle.feasible.specs.declared.stage.Stage.TheVariants.{Second};
ghost use Rattle.feasible.specs.Stages.{held_to};
ghost use Rattle.checks.specs.Proposed.{held_of};
ghost use Rattle.law.specs.State.{step_in};
ghost use Rattle.run.specs.Judged.{Judged, second_book};
ghost use Rattle.run.specs.View.{SameMarket, Still, force_of, state_of};

use crate::run::Run;
use book::OfferBook;
use calls::Proposal;
use checks::{Held, judge};
use fault::{Cause, Fault};
use feasible::{Stage, Step};
use network::Network;

impl<B: OfferBook, N: Network> Run<B, N> {
    // Holds a proposal as its step, unless a cause declines it. A first step replaces the first and drops the second; a
    // second step, for which a first has to be held, replaces the second.
    pub fn propose(&mut self, proposal: &Proposal) -> Result<(), Fault>
        ensures called { Called (B.OfferBook.meaning self.old.book.book) (N.Network.meaning self.old.network) (state_of self.old) (Propose proposal.now) (state_of self.new) result }
        ensures market { SameMarket self.old self.new }
    {
        match Stage::try_from(proposal.step)? {
            Stage::First => self.propose_first(proposal),
            Stage::Second => self.propose_second(proposal),
        }
    }

    // What a step is held to by what is in force.
    fn step(&self, stage: Stage) -> Step
        ensures { held_to result ≡ step_in (force_of self.now) stage }
    {
        Step {
            constraints: self.constraints,
            stage,
        }
    }

    // At the prices of the book below.
    fn propose_first(&mut self, proposal: &Proposal) -> Result<(), Fault>
        requires { proposal.now.step ≡ 1 }
        ensures called { Called (B.OfferBook.meaning self.old.book.book) (N.Network.meaning self.old.network) (state_of self.old) (Propose proposal.now) (state_of self.new) result }
        ensures market { SameMarket self.old self.new }
    {
        let step = self.step(Stage::First);
        let held = judge(
            self.book.below(),
            &self.network,
            &step,
            self.tolerance,
            proposal,
        )?;
        self.first = Some(held);
        self.second = None;
        Ok(())
    }

    // At the prices of the bounded book, by the terms in force and the first step held.
    fn propose_second(&mut self, proposal: &Proposal) -> Result<(), Fault>
        requires { proposal.now.step ≡ 2 }
        ensures called { Called (B.OfferBook.meaning self.old.book.book) (N.Network.meaning self.old.network) (state_of self.old) (Propose proposal.now) (state_of self.new) result }
        ensures market { SameMarket self.old self.new }
    {
        let Some(first) = self.first else {
            return Err(Fault::new(Cause::StepNumber, 0));
        };
        let held = self.judge_second(&first, proposal)?;
        self.second = Some(held);
        Ok(())
    }

    // What a proposal would be held as in the second step beside this first, or its first fault.
    fn judge_second(&mut self, first: &Held, proposal: &Proposal) -> Result<Held, Fault>
        ensures judged { Judged (second_book (B.OfferBook.meaning self.old.book.book) (N.Network.meaning self.old.network) (force_of self.old) (held_of first.now)) (N.Network.meaning self.old.network) (force_of self.old) Second proposal.now result }
        ensures still { Still self.old self.new }
    {
        self.bound_by(first);
        let step = self.step(Stage::Second);
        let judged = judge(&self.book, &self.network, &step, self.tolerance, proposal);
        self.unbound();
        judged
    }
}
