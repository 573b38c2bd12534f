// What a dispatch is held to in a step.

ghost use Rattle.std.specs.Prelude.{◌≡◌, pos, ◌≤ℤ◌};
ghost use Rattle.market.specs.Market.{due, room};
ghost use Rattle.feasible.specs.Stages.{held_to, step_of};

use crate::balancing::readings;
use crate::constraints::Constraints;
use crate::stage::Stage;
use book::OfferBook;

#[derive(Clone, Copy)]
pub struct Step {
    pub constraints: Constraints,
    pub stage: Stage,
}

impl Step {
    // Whether the step observes a line.
    pub fn observes(&self, line: usize) -> bool
        ensures { result ≡ (held_to self.now).observed line }
    {
        match self.stage {
            Stage::First => self.constraints.at(line).competitive,
            Stage::Second => true,
        }
    }

    // What a line may carry where it is observed, in either stage, in thousandths of a tenth.
    pub fn room(&self, line: usize) -> i64
        ensures value { result ≡ room (held_to self.now) line }
        ensures either { (t : Stage) → result ≡ room (step_of self.now.constraints t) line }
        ensures least { pos 0 ≤ℤ result }
        ensures most { result ≤ℤ pos 1000000000 }
    {
        1_000 * self.constraints.at(line).amount as i64
    }

    // What the balance has to be, in either stage: the requirement less all readings.
    pub fn due<B: OfferBook>(&self, book: &B) -> i64
        ensures value { result ≡ due (B.OfferBook.meaning book.now) (held_to self.now) }
        ensures either { (t : Stage) → result ≡ due (B.OfferBook.meaning book.now) (step_of self.now.constraints t) }
    {
        self.constraints.requirement as i64 - readings(book)
    }
}
