// The limit of a line.

ghost use Rattle.std.specs.Prelude.{◌≡◌};
ghost use Rattle.calls.specs.declared.call.Call.TheVariants.{Limit};
ghost use Rattle.run.specs.Called.{Called};
ghost use Rattle.run.specs.View.{SameMarket, state_of};

use crate::run::Run;
use book::OfferBook;
use calls::LineLimit;
use fault::{Cause, Fault};
use network::Network;

impl<B: OfferBook, N: Network> Run<B, N> {
    // Sets one line's limit and whether it is competitive, and drops both held steps, unless there is no such line or
    // the limit is out of range.
    pub fn limit(&mut self, asked: LineLimit) -> Result<(), Fault>
        ensures called { Called (B.OfferBook.meaning self.old.book.book) (N.Network.meaning self.old.network) (state_of self.old) (Limit asked) (state_of self.new) result }
        ensures market { SameMarket self.old self.new }
    {
        if asked.line >= self.network.lines() {
            return Err(Fault::new(Cause::Absent, asked.line));
        }
        self.constraints
            .limit(asked.line, asked.amount, asked.competitive)?;
        self.first = None;
        self.second = None;
        Ok(())
    }
}
