// The calls of a script are made on runs: all of them for their answers, and those above a line for what it asks.

ghost use Rattle.std.specs.Prelude.{◌≡◌, ℕ, ◌<◌, reverse, length, take, IfOk, None, slice_index_or};
ghost use Rattle.law.specs.Law.{LawOfRuns, leaves};
ghost use Rattle.run.specs.Played.{answer_at};
ghost use Rattle.run.specs.View.{state_of};

use book::OfferBook;
use calls::Call;
use fault::Fault;
use network::Network;
use run::{Run, play};
use std::alloc::{AllocError, Global};

// The fault of each call, or none.
pub(crate) fn answers_of<B: OfferBook + Copy, N: Network + Copy>(
    heap: Global,
    book: &B,
    network: &N,
    calls: &[Call],
) -> Result<Vec<Option<Fault>>, AllocError>
    ensures { IfOk result (λ answers. (k : ℕ) → k < length calls.now → slice_index_or answers.items k None ≡ answer_at (B.OfferBook.meaning book.now) (N.Network.meaning network.now) calls.now k) }
{
    let mut answers = vec![in heap; None; calls.len()]?;
    let _ = play(*book, *network, calls, answers.as_mut_slice());
    Ok(answers)
}

// The answer to the call at a place.
pub(crate) fn answer_at(answers: &[Option<Fault>], place: usize) -> Option<Fault>
    ensures { result ≡ slice_index_or answers.now place None }
{
    answers.get(place).copied().flatten()
}

// The first calls of a list.
fn first_calls(calls: &[Call], count: usize) -> &[Call]
    ensures { result.now ≡ take count calls.now }
{
    &calls[..count.min(calls.len())]
}

// A new run on which so many of the calls were made.
pub(crate) fn run_after<B: OfferBook + Copy, N: Network + Copy>(
    book: &B,
    network: &N,
    calls: &[Call],
    count: usize,
) -> Run<B, N>
    ensures state { state_of result ≡ leaves (B.OfferBook.meaning book.now) (N.Network.meaning network.now) (reverse (take count calls.now)) }
    ensures book { result.book.book ≡ book.now }
    ensures network { result.network ≡ network.now }
    ensures law { LawOfRuns (B.OfferBook.meaning book.now) (N.Network.meaning network.now) (reverse (take count calls.now)) }
{
    play(*book, *network, first_calls(calls, count), &mut [])
}
