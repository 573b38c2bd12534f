// The requirement and the tolerance.

ghost use Rattle.std.specs.Prelude.{◌≡◌};
ghost use Rattle.calls.specs.declared.call.Call.TheVariants.{Require};
ghost use Rattle.run.specs.Called.{Called};
ghost use Rattle.run.specs.View.{SameMarket, state_of};

use crate::run::Run;
use book::OfferBook;
use calls::Requirement;
use fault::{Cause, Fault};
use network::Network;

impl<B: OfferBook, N: Network> Run<B, N> {
    // Sets both and drops both held steps, unless one is out of range.
    pub fn require(&mut self, asked: Requirement) -> Result<(), Fault>
        ensures called { Called (B.OfferBook.meaning self.old.book.book) (N.Network.meaning self.old.network) (state_of self.old) (Require asked) (state_of self.new) result }
        ensures market { SameMarket self.old self.new }
    {
        if asked.tolerance > 1_000_000_000_000 {
            return Err(Fault::new(Cause::Amount, 0));
        }
        self.constraints.require(asked.amount)?;
        self.tolerance = asked.tolerance;
        self.first = None;
        self.second = None;
        Ok(())
    }
}
