// What an offer book is: participants with a bus, a side, limits, a reading and a price for each
// level. Whatever judges a dispatch is proved over this meaning, and so over any book.
#![tactic(auto)]

ghost use Rattle.std.specs.Prelude.{◌≡◌, ℕ, ◌≤◌, ◌≤ℤ◌};
ghost use Rattle.book.specs.Meaning.{Book, Lawful, least_price, most_price};
ghost use Rattle.book.specs.Sides.{side_of};

mod side;
mod span;

pub use side::{Side, is_generator};
pub use span::price_span;

// An offer book answers questions about its participants, numbered from 0. A participant or a level
// that is not there has the answer 0, or no side.
pub trait OfferBook {
    ghost meaning: { Self → Book };

    // the number of participants, at most 64
    fn count(&self) -> usize
        ensures { result ≡ (meaning self.now).count };

    // 0 to 63
    fn bus(&self, participant: usize) -> u8
        ensures { result ≡ (meaning self.now).bus participant };

    fn side(&self, participant: usize) -> Option<Side>
        ensures { side_of result ≡ (meaning self.now).side participant };

    // the least base point, in tenths
    fn low(&self, participant: usize) -> u16
        ensures { result ≡ (meaning self.now).low participant };

    // the greatest base point, in tenths
    fn high(&self, participant: usize) -> u16
        ensures { result ≡ (meaning self.now).high participant };

    // a load's telemetered consumption, in tenths
    fn reading(&self, participant: usize) -> u16
        ensures { result ≡ (meaning self.now).reading participant };

    // the price in cents of the tenth that ends at `level`, from above `low` up to `high`
    fn price(&self, participant: usize, level: u16) -> i32
        ensures { result ≡ (meaning self.now).price participant level };

    // what every book owes
    ghost lawful: { (b : Self) → Lawful (meaning b) };

    // parts of it that arithmetic wants at hand
    ghost few: { (b : Self) → (meaning b).count ≤ 64 };

    ghost buses: { (b : Self) (i : ℕ) → (meaning b).bus i ≤ 63 };

    ghost limits: { (b : Self) (i : ℕ) → (meaning b).low i ≤ (meaning b).high i };

    ghost highest: { (b : Self) (i : ℕ) → (meaning b).high i ≤ 20000 };

    ghost readings: { (b : Self) (i : ℕ) → (meaning b).reading i ≤ 20000 };

    ghost least: { (b : Self) (i q : ℕ) → least_price ≤ℤ (meaning b).price i q };

    ghost most: { (b : Self) (i q : ℕ) → (meaning b).price i q ≤ℤ most_price };
}
