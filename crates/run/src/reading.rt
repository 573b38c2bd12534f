// What a run holds and has in force, to read.

ghost use Rattle.std.specs.Prelude.{◌≡◌};
ghost use Rattle.std.specs.Option.{option_map};
ghost use Rattle.dispatch.specs.Base.{base_of};
ghost use Rattle.market.specs.Market.{worth};
ghost use Rattle.checks.specs.Proposed.{held_of};
ghost use Rattle.feasible.specs.declared.stage.Stage.TheVariants.{Second};
ghost use Rattle.law.specs.Law.{book_at};
ghost use Rattle.law.specs.State.{held_in};
ghost use Rattle.run.specs.Judged.{second_book};
ghost use Rattle.run.specs.View.{Still, force_of, state_of};
ghost use Rattle.run.specs.Worth.{worth_at};

use crate::run::Run;
use book::OfferBook;
use checks::Held;
use dispatch::Dispatch;
use feasible::{Constraints, Stage};
use market::worth;
use network::Network;

impl<B, N> Run<B, N> {
    // The step that is held.
    pub fn held(&self, stage: Stage) -> Option<Held>
        ensures { option_map held_of result ≡ held_in (state_of self.now) stage }
    {
        match stage {
            Stage::First => self.first,
            Stage::Second => self.second,
        }
    }

    // The requirement, limits and competitive lines in force.
    pub fn constraints(&self) -> Constraints
        ensures { result ≡ self.now.constraints }
    {
        self.constraints
    }
}

impl<B: OfferBook, N: Network> Run<B, N> {
    // The worth of the step that is held, at the prices of its step. The run is the same afterwards; while the second
    // step's worth is worked out, its bounded layer has the reference prices.
    pub fn worth(&mut self, stage: Stage) -> Option<i64>
        ensures value { result ≡ worth_at (B.OfferBook.meaning self.old.book.book) (N.Network.meaning self.old.network) (state_of self.old) stage }
        ensures still { Still self.old self.new }
    {
        let held = self.held(stage)?;
        match stage {
            Stage::First => Some(worth(self.book.below(), &held.dispatch)),
            Stage::Second => Some(self.second_worth(&held.dispatch)),
        }
    }

    // The worth of a dispatch at the prices of the second step.
    fn second_worth(&mut self, dispatch: &Dispatch) -> i64
        ensures value { result ≡ worth (book_at (B.OfferBook.meaning self.old.book.book) (N.Network.meaning self.old.network) (state_of self.old) Second) (base_of dispatch.now) }
        ensures still { Still self.old self.new }
    {
        match self.first {
            Some(first) => self.bounded_worth(&first, dispatch),
            None => worth(self.book.below(), dispatch),
        }
    }

    // The worth of a dispatch at the prices that a first step bounds.
    fn bounded_worth(&mut self, first: &Held, dispatch: &Dispatch) -> i64
        ensures value { result ≡ worth (second_book (B.OfferBook.meaning self.old.book.book) (N.Network.meaning self.old.network) (force_of self.old) (held_of first.now)) (base_of dispatch.now) }
        ensures still { Still self.old self.new }
    {
        self.bound_by(first);
        let worth = worth(&self.book, dispatch);
        self.unbound();
        worth
    }
}
