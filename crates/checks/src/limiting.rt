// Base points within the limits of their participants.

ghost use Rattle.std.specs.Prelude.{◌≡◌, length, Some, None, MatchResult};
ghost use Rattle.calls.specs.Given.{points_in};
ghost use Rattle.dispatch.specs.Base.{base_of};
ghost use Rattle.checks.specs.Causes.{base_fault, limit_fault, outside};
ghost use Rattle.feasible.specs.First.{first_place};
ghost use Rattle.checks.specs.Pointed.{pointed};

use book::OfferBook;
use calls::BasePoints;
use dispatch::Dispatch;
use fault::{Cause, Fault};

fn is_outside<B: OfferBook>(book: &B, points: &[u16], participant: usize) -> bool
    ensures { result ≡ outside (B.OfferBook.meaning book.now) (pointed points.now) participant }
{
    let point = points.get(participant).copied().unwrap_or(0);
    point < book.low(participant) || point > book.high(participant)
}

// The first participant whose base point lies outside its limits. These points are no dispatch yet, which `feasible` asks
// of its own search: they may be greater than any dispatch holds.
fn first_outside<B: OfferBook>(book: &B, points: &[u16]) -> Option<usize>
    ensures { result ≡ first_place (outside (B.OfferBook.meaning book.now) (pointed points.now)) (length points.now) }
{
    (0..points.len()).find(|participant| is_outside(book, points, *participant))
}

// The dispatch of base points within limits, or the first that is outside.
pub(crate) fn dispatch_of<B: OfferBook>(book: &B, points: &[u16]) -> Result<Dispatch, Fault>
    requires { length points.now ≡ (B.OfferBook.meaning book.now).count }
    ensures { MatchResult result (λ d. (limit_fault (B.OfferBook.meaning book.now) (pointed points.now) ≡ None) × (base_of d ≡ pointed points.now)) (λ f. limit_fault (B.OfferBook.meaning book.now) (pointed points.now) ≡ Some f) }
{
    if let Some(place) = first_outside(book, points) {
        return Err(Fault::new(Cause::BasePoint, place));
    }
    match Dispatch::new(points) {
        Some(dispatch) => Ok(dispatch),
        None => unreachable(),
    }
}

// The dispatch of base points alone, one for each participant, or their first fault.
pub fn dispatch_at<B: OfferBook>(book: &B, base: &BasePoints) -> Result<Dispatch, Fault>
    ensures { MatchResult result (λ d. (base_fault (B.OfferBook.meaning book.now) base.now ≡ None) × (base_of d ≡ pointed (points_in base.now))) (λ f. base_fault (B.OfferBook.meaning book.now) base.now ≡ Some f) }
{
    if base.count != book.count() {
        return Err(Fault::new(Cause::ListLength, 0));
    }
    dispatch_of(book, base.as_slice())
}
