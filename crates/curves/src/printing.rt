// A participant of any offer book, printed through what every book answers.

ghost use Rattle.std.specs.Prelude.{◌≡◌, ◌<◌};
ghost use Rattle.curves.specs.Parting.{agreed, parted};

use crate::corners::Corners;
use book::{OfferBook, price_span};
use bounded::Bounded;
use std::io;

// The rest of the header, the corners of the curve, and where it is bounded the corners again.
pub(crate) fn print_participant<B: OfferBook, C: Corners>(
    rt: &HostRuntime,
    book: &Bounded<B>,
    participant: usize,
    corners: &C,
    // asked here, since both callers would have to ask before the same second call
    is_bounded: bool,
) -> io::Result<()> {
    let plain = book.below();
    print_header(rt, plain, participant)?;
    print_curve(rt, plain, plain, participant, corners)?;
    if is_bounded {
        print!(rt; "bounded")?;
        print_span(rt, book, participant)?;
        print_curve(rt, plain, book, participant, corners)?;
    }
    Ok(())
}

fn print_header<B: OfferBook>(rt: &HostRuntime, book: &B, participant: usize) -> io::Result<()> {
    let bus = book.bus(participant);
    let side = book.side(participant).map_or(0, |side| side.sign());
    let low = book.low(participant);
    let high = book.high(participant);
    print!(rt; " bus {bus} side {side} low {low} high {high}")?;
    print_span(rt, book, participant)
}

// The least and the greatest price, where there is one, and the end of the line.
fn print_span<B: OfferBook>(rt: &HostRuntime, book: &B, participant: usize) -> io::Result<()> {
    match price_span(book, participant) {
        Some((least, most)) => println!(rt; " from {least} to {most}"),
        None => println!(rt),
    }
}

// The corners of the participant's curve in `book`, and the levels between which its price leaves
// the one in `plain` or comes back to it.
fn print_curve<A: OfferBook, B: OfferBook, C: Corners>(
    rt: &HostRuntime,
    plain: &A,
    book: &B,
    participant: usize,
    corners: &C,
) -> io::Result<()> {
    for below in book.low(participant)..book.high(participant) {
        if corners.corner_after(below)
            || parts_after(plain, book, participant, below)
            || parts_after(plain, book, participant, below + 1)
        {
            let level = below + 1;
            let price = book.price(participant, level);
            println!(rt; "{level} {price}")?;
        }
    }
    Ok(())
}

// Whether the two books have one price at the level and two at the next, or the other way round.
fn parts_after<A: OfferBook, B: OfferBook>(
    plain: &A,
    book: &B,
    participant: usize,
    level: u16,
) -> bool
    requires { level < 65535 }
    ensures { result ≡ parted (A.OfferBook.meaning plain.now) (B.OfferBook.meaning book.now) participant level }
{
    agree(plain, book, participant, level) != agree(plain, book, participant, level + 1)
}

fn agree<A: OfferBook, B: OfferBook>(plain: &A, book: &B, participant: usize, level: u16) -> bool
    ensures { result ≡ agreed (A.OfferBook.meaning plain.now) (B.OfferBook.meaning book.now) participant level }
{
    plain.price(participant, level) == book.price(participant, level)
}
