// A list of calls on a new run.

ghost use Rattle.std.specs.Prelude.{◌≡◌, ℕ, ◌<◌, reverse, length, if◌then◌else◌, None, nat_lt, slice_index_or, slice_set};
ghost use Rattle.law.specs.After.{state_after};
ghost use Rattle.law.specs.Declined.{fault_of};
ghost use Rattle.law.specs.Law.{LawOfRuns, leaves};
ghost use Rattle.run.specs.Called.{Called};
ghost use Rattle.run.specs.Played.{answer_at};
ghost use Rattle.run.specs.View.{SameMarket, state_of};

use crate::run::Run;
use book::OfferBook;
use calls::Call;
use fault::Fault;
use network::Network;

impl<B: OfferBook, N: Network> Run<B, N> {
    // Whichever call it is.
    pub fn call(&mut self, call: &Call) -> Result<(), Fault>
        ensures called { Called (B.OfferBook.meaning self.old.book.book) (N.Network.meaning self.old.network) (state_of self.old) call.now (state_of self.new) result }
        ensures market { SameMarket self.old self.new }
    {
        match call {
            Call::Require(asked) => self.require(*asked),
            Call::Limit(asked) => self.limit(*asked),
            Call::Term(asked) => self.term(*asked),
            Call::Propose(proposal) => self.propose(proposal),
        }
    }

    // The fault of a call that is declined, as `play` writes it: its list is filled with nothing beforehand, which no
    // `Result` says.
    fn fault_of(&mut self, call: &Call) -> Option<Fault>
        ensures told { result ≡ fault_of (B.OfferBook.meaning self.old.book.book) (N.Network.meaning self.old.network) (state_of self.old) call.now }
        ensures left { state_of self.new ≡ state_after (B.OfferBook.meaning self.old.book.book) (N.Network.meaning self.old.network) (state_of self.old) call.now }
        ensures market { SameMarket self.old self.new }
    {
        self.call(call).err()
    }
}

// Writes an answer at its place, if there is room: a call is made also where there is none, so calls and answers are not
// zipped.
fn note(answers: &mut [Option<Fault>], place: usize, answer: Option<Fault>)
    ensures { answers.new ≡ slice_set answers.old place answer }
{
    if place < answers.len() {
        answers[place] = answer;
    }
}

// Makes the calls in their order on a new run, writes the fault of each, or none, into `answers`, as far as there is
// room, and returns the run. The law of runs holds of it.
pub fn play<B: OfferBook, N: Network>(
    book: B,
    network: N,
    calls: &[Call],
    answers: &mut [Option<Fault>],
) -> Run<B, N>
    ensures state { state_of result ≡ leaves (B.OfferBook.meaning book) (N.Network.meaning network) (reverse calls.now) }
    ensures book { result.book.book ≡ book }
    ensures network { result.network ≡ network }
    ensures answers { (k : ℕ) → k < length answers.old → slice_index_or answers.new k None ≡ (if nat_lt k (length calls.now) then answer_at (B.OfferBook.meaning book) (N.Network.meaning network) calls.now k else slice_index_or answers.old k None) }
    ensures law { LawOfRuns (B.OfferBook.meaning book) (N.Network.meaning network) (reverse calls.now) }
{
    let mut run = Run::new(book, network);
    for (place, call) in calls.iter().enumerate() {
        note(answers, place, run.fault_of(call));
    }
    run
}
