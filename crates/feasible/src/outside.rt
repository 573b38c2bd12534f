// Base points within dispatch limits.

ghost use Rattle.std.specs.Option.{MatchOption};
ghost use Rattle.dispatch.specs.Base.{base_of};
ghost use Rattle.feasible.specs.Places.{Everywhere, FirstFailing};
ghost use Rattle.feasible.specs.Checks.{Within};

use book::OfferBook;
use dispatch::Dispatch;

// The first participant whose base point lies outside its limits.
pub fn first_outside<B: OfferBook>(book: &B, dispatch: &Dispatch) -> Option<usize>
    ensures { MatchOption result (Everywhere (B.OfferBook.meaning book.now).count (Within (B.OfferBook.meaning book.now) (base_of dispatch.now))) (FirstFailing (B.OfferBook.meaning book.now).count (Within (B.OfferBook.meaning book.now) (base_of dispatch.now))) }
{
    (0..book.count()).find(|participant| {
        let base = dispatch.base(*participant);
        base < book.low(*participant) || base > book.high(*participant)
    })
}
