// The least and the greatest price of a participant, in any offer book.

ghost use Rattle.std.specs.Prelude.{◌≡◌};
ghost use Rattle.book.specs.Span.{span_of, Within};

use crate::OfferBook;
use crate::side::is_generator;

// None where the participant has no level.
pub fn price_span<B: OfferBook>(book: &B, participant: usize) -> Option<(i32, i32)>
    ensures value { result ≡ span_of (B.OfferBook.meaning book.now) participant }
    ensures bounds { Within (B.OfferBook.meaning book.now) participant result }
{
    let low = book.low(participant);
    let high = book.high(participant);
    if low == high {
        return None;
    }
    let first = book.price(participant, low + 1);
    let last = book.price(participant, high);
    if is_generator(book.side(participant)) {
        Some((first, last))
    } else {
        Some((last, first))
    }
}
