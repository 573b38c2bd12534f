// A participant of the block book: a row that keeps the rules, with its greatest level.

ghost use Rattle.std.specs.Prelude.{◌≡◌, ℕ, ◌<◌, ◌≤◌, ◌≤ℤ◌};
ghost use Rattle.book.specs.Meaning.{least_price, most_price};
ghost use Rattle.block.specs.Blocks.{high_of, price_at};

use crate::row::BlockRow;

#[derive(Clone, Copy)]
pub struct Stack {
    pub(crate) row: BlockRow,
    pub(crate) high: u16,
    ghost site: { row.bus ≤ 63 },
    ghost whole: { high ≡ high_of row },
    ghost highest: { high_of row ≤ 20000 },
    ghost least: { (q : ℕ) → least_price ≤ℤ price_at row q },
    ghost most: { (q : ℕ) → price_at row q ≤ℤ most_price },
    ghost rises: { (p q : ℕ) → (0 < p) × (p ≤ q) × (q ≤ high_of row) → price_at row p ≤ℤ price_at row q },
}
