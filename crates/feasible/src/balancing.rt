// The balance of a dispatch, and what it has to be.

ghost use Rattle.std.specs.Prelude.{◌≡◌, pos, negsuc, ◌≤ℤ◌, Decides};
ghost use Rattle.dispatch.specs.Base.{base_of};
ghost use Rattle.market.specs.Market.{balance, due};
ghost use Rattle.feasible.specs.Checks.{readings};
ghost use Rattle.feasible.specs.Stages.{held_to, step_of};

use crate::stage::Stage;
use crate::step::Step;
use book::OfferBook;
use dispatch::{Dispatch, injection};

// Side times base point, summed over all participants.
pub fn balance<B: OfferBook>(book: &B, dispatch: &Dispatch) -> i64
    ensures value { result ≡ balance (B.OfferBook.meaning book.now) (base_of dispatch.now) }
    ensures least { negsuc 1279999 ≤ℤ result }
    ensures most { result ≤ℤ pos 1280000 }
{
    let mut total = 0;
    for participant in 0..book.count() {
        total += injection(book, dispatch, participant);
    }
    total
}

// The readings of all participants.
pub(crate) fn readings<B: OfferBook>(book: &B) -> i64
    ensures value { result ≡ readings (B.OfferBook.meaning book.now) (B.OfferBook.meaning book.now).count }
    ensures least { pos 0 ≤ℤ result }
    ensures most { result ≤ℤ pos 1280000 }
{
    let mut total = 0;
    for participant in 0..book.count() {
        total += book.reading(participant) as i64;
    }
    total
}

// Whether the balance is what it has to be, in either stage.
pub fn balanced<B: OfferBook>(book: &B, dispatch: &Dispatch, step: &Step) -> bool
    ensures value { Decides result (balance (B.OfferBook.meaning book.now) (base_of dispatch.now) ≡ due (B.OfferBook.meaning book.now) (held_to step.now)) }
    ensures either { (t : Stage) → Decides result (balance (B.OfferBook.meaning book.now) (base_of dispatch.now) ≡ due (B.OfferBook.meaning book.now) (step_of step.now.constraints t)) }
{
    balance(book, dispatch) == step.due(book)
}
