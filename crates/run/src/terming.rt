// The mitigation term of a participant.

ghost use Rattle.std.specs.Prelude.{◌≡◌};
ghost use Rattle.calls.specs.declared.call.Call.TheVariants.{Term as SetTerm};
ghost use Rattle.run.specs.Called.{Called};
ghost use Rattle.run.specs.View.{SameMarket, state_of};

use crate::run::Run;
use book::OfferBook;
use bounded::Term;
use calls::ParticipantTerm;
use fault::{Cause, Fault};
use network::Network;

impl<B: OfferBook, N: Network> Run<B, N> {
    // Sets one participant's term and drops the second held step, unless there is no such participant or a number is out
    // of range.
    pub fn term(&mut self, asked: ParticipantTerm) -> Result<(), Fault>
        ensures called { Called (B.OfferBook.meaning self.old.book.book) (N.Network.meaning self.old.network) (state_of self.old) (SetTerm asked) (state_of self.new) result }
        ensures market { SameMarket self.old self.new }
    {
        if asked.participant >= self.book.below().count() {
            return Err(Fault::new(Cause::Absent, asked.participant));
        }
        let Some(term) = Term::new(asked.floor, asked.ceiling, asked.adder, asked.subject) else {
            return Err(Fault::new(Cause::Amount, asked.participant));
        };
        self.book.set_term(asked.participant, term);
        self.second = None;
        Ok(())
    }
}
