// Flows within the limits of observed lines.

ghost use Rattle.std.specs.Prelude.{◌≡◌, MatchOption};
ghost use Rattle.network.specs.Sheet.{sheet_of};
ghost use Rattle.dispatch.specs.Base.{base_of};
ghost use Rattle.feasible.specs.Checks.{Carried, over};
ghost use Rattle.feasible.specs.Places.{Everywhere, FirstFailing};
ghost use Rattle.feasible.specs.Stages.{held_to};

use crate::step::Step;
use book::OfferBook;
use dispatch::{Dispatch, injections_of};
use network::{Injections, Network};

// Whether a step observes a line and its flow is over 1,000 times its limit.
fn overloaded<N: Network>(network: &N, sheet: &Injections, step: &Step, line: usize) -> bool
    ensures { result ≡ over (N.Network.meaning network.now) (held_to step.now) (sheet_of sheet.now) line }
{
    step.observes(line) && step.room(line) < network.flow(line, sheet)
}

// The first observed line whose flow is over 1,000 times its limit.
pub fn first_overloaded<B: OfferBook, N: Network>(
    book: &B,
    network: &N,
    dispatch: &Dispatch,
    step: &Step,
) -> Option<usize>
    ensures { MatchOption result (Everywhere (N.Network.meaning network.now).lines (Carried (B.OfferBook.meaning book.now) (N.Network.meaning network.now) (held_to step.now) (base_of dispatch.now))) (FirstFailing (N.Network.meaning network.now).lines (Carried (B.OfferBook.meaning book.now) (N.Network.meaning network.now) (held_to step.now) (base_of dispatch.now))) }
{
    let sheet = injections_of(book, dispatch);
    (0..network.lines()).find(|line| overloaded(network, &sheet, step, *line))
}
