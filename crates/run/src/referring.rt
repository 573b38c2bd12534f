// The reference prices of a first step.

ghost use Rattle.std.specs.Prelude.{◌≡◌, ℕ, ◌<◌, pos, if◌then◌else◌, nat_lt, slice_index_or};
ghost use Rattle.market.specs.Quoted.{prices_of};
ghost use Rattle.bounded.specs.Mitigation.{layered};
ghost use Rattle.bounded.specs.Tabled.{layer_of};
ghost use Rattle.checks.specs.Proposed.{held_of};
ghost use Rattle.law.specs.State.{reference};
ghost use Rattle.run.specs.Judged.{second_book};
ghost use Rattle.run.specs.View.{Still, force_of, state_of};

use crate::run::Run;
use book::OfferBook;
use checks::Held;
use market::{Quote, lmp};
use network::Network;
use std::array;

// A participant's price in cents, rounded toward minus infinity.
fn reference<B: OfferBook, N: Network>(
    book: &B,
    network: &N,
    quote: &Quote,
    participant: usize,
) -> i32
    ensures { result ≡ reference (B.OfferBook.meaning book.now) (N.Network.meaning network.now) (prices_of quote.now) participant }
{
    lmp(book, network, quote, participant).div_euclid(1_000) as i32
}

// The same, and 0 where there is no such participant: no price is worked out for one.
fn reference_at<B: OfferBook, N: Network>(
    book: &B,
    network: &N,
    quote: &Quote,
    participant: usize,
) -> i32
    ensures { result ≡ (if nat_lt participant (B.OfferBook.meaning book.now).count then reference (B.OfferBook.meaning book.now) (N.Network.meaning network.now) (prices_of quote.now) participant else pos 0) }
{
    if participant < book.count() {
        reference(book, network, quote, participant)
    } else {
        0
    }
}

// The reference prices of all participants.
fn references_of<B: OfferBook, N: Network>(book: &B, network: &N, quote: &Quote) -> [i32; 64]
    ensures { (i : ℕ) → i < (B.OfferBook.meaning book.now).count → slice_index_or result i (pos 0) ≡ reference (B.OfferBook.meaning book.now) (N.Network.meaning network.now) (prices_of quote.now) i }
{
    array::from_fn(|participant| reference_at(book, network, quote, participant))
}

impl<B: OfferBook, N: Network> Run<B, N> {
    // Sets the reference prices of a first step, until they are cleared.
    pub(crate) fn bound_by(&mut self, first: &Held)
        ensures bounded { layered (B.OfferBook.meaning self.new.book.book) (layer_of self.new.book.table) ≡ second_book (B.OfferBook.meaning self.old.book.book) (N.Network.meaning self.old.network) (force_of self.old) (held_of first.now) }
        ensures still { Still self.old self.new }
    {
        self.book.refer(references_of(self.book.below(), &self.network, &first.quote));
    }

    // Reference prices are no part of what is in force.
    pub(crate) fn unbound(&mut self)
        ensures still { Still self.old self.new }
    {
        self.book.clear();
    }
}
