// One participant of the house book. What the law of books asks of it stands in its type.

ghost use Rattle.std.specs.Prelude.{◌≡◌, ℕ, ◌≤◌, ◌*ℤ◌, ◌≤ℤ◌};
ghost use Rattle.book.specs.Meaning.{least_price, most_price, generator};
ghost use Rattle.book.specs.Sides.{sign_of};
ghost use Rattle.curve.specs.Complete.{price_on};

use book::Side;
use curve::Curve;

#[derive(Clone, Copy)]
pub struct Unit {
    pub(crate) bus: u8,
    pub(crate) side: Side,
    pub(crate) low: u16,
    pub(crate) high: u16,
    pub(crate) reading: u16,
    pub(crate) curve: Curve,
    ghost there: { bus ≤ 63 },
    ghost limits: { low ≤ high },
    ghost highest: { high ≤ 20000 },
    ghost readings: { reading ≤ 20000 },
    ghost unread: { (sign_of side ≡ generator → reading ≡ 0) },
    ghost least: { ((q : ℕ) → least_price ≤ℤ price_on curve q) },
    ghost most: { ((q : ℕ) → price_on curve q ≤ℤ most_price) },
    ghost moves: { ((p q : ℕ) → p ≤ q → (sign_of side *ℤ price_on curve p) ≤ℤ (sign_of side *ℤ price_on curve q)) },
}
