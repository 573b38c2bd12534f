// What a dispatch injects, bus by bus, and the flow that it makes on a line.

ghost use Rattle.std.specs.Prelude.{◌≡◌, ℕ, ◌<◌, pos, negsuc, ◌+ℤ◌, ◌≤ℤ◌, if◌then◌else◌, nat_eq};
ghost use Rattle.network.specs.Sheet.{sheet_of};
ghost use Rattle.dispatch.specs.Base.{base_of};
ghost use Rattle.dispatch.specs.Injected.{injection, injected, dispatch_flow, participant_flow};

use crate::dispatch::Dispatch;
use crate::sides::sided;
use book::OfferBook;
use network::{Injections, Network};

// What a participant injects: side times base point.
pub fn injection<B: OfferBook>(book: &B, dispatch: &Dispatch, participant: usize) -> i64
    ensures value { result ≡ injection (B.OfferBook.meaning book.now) (base_of dispatch.now) participant }
    ensures least { negsuc 19999 ≤ℤ result }
    ensures most { result ≤ℤ pos 20000 }
{
    sided(book.side(participant), dispatch.base(participant) as i64)
}

// One amount more at a bus of the sheet.
fn add(sheet: &mut Injections, bus: u8, amount: i32)
    requires there { bus < 64 }
    requires least { negsuc 1279999 ≤ℤ (sheet_of sheet.old bus +ℤ amount) }
    requires most { (sheet_of sheet.old bus +ℤ amount) ≤ℤ pos 1280000 }
    ensures { (b : ℕ) → sheet_of sheet.new b ≡ (if nat_eq b bus then sheet_of sheet.old b +ℤ amount else sheet_of sheet.old b) }
{
    let total = sheet.at(bus as usize) + amount;
    let _ = sheet.put(bus as usize, total);
}

// The injections of a dispatch: side times base point, summed at each bus.
pub fn injections_of<B: OfferBook>(book: &B, dispatch: &Dispatch) -> Injections
    ensures { (b : ℕ) → sheet_of result b ≡ injected (B.OfferBook.meaning book.now) (base_of dispatch.now) b }
{
    let mut sheet = Injections::new();
    for participant in 0..book.count() {
        let amount = injection(book, dispatch, participant) as i32;
        add(&mut sheet, book.bus(participant), amount);
    }
    sheet
}

// The flow of a dispatch on one line. It is also the sum over participants of the share at their bus
// times side times base point.
pub fn flow_of<B: OfferBook, N: Network>(
    book: &B,
    network: &N,
    dispatch: &Dispatch,
    line: usize,
) -> i64
    ensures value { result ≡ dispatch_flow (B.OfferBook.meaning book.now) (N.Network.meaning network.now) (base_of dispatch.now) line }
    ensures exchanged { result ≡ participant_flow (B.OfferBook.meaning book.now) (N.Network.meaning network.now) (base_of dispatch.now) line }
{
    let sheet = injections_of(book, dispatch);
    network.flow(line, &sheet)
}
