// How a participant is made from its row, and what it answers.

ghost use Rattle.std.specs.Prelude.{◌≡◌};
ghost use Rattle.block.specs.Blocks.{high_of, price_at};
ghost use Rattle.block.specs.Rules.{Kept};

use crate::blocks::{block_price, total};
use crate::row::{Block, BlockRow};
use crate::stack::Stack;
use given::Given;

impl Stack {
    // The participant of a row that keeps every rule.
    pub(crate) fn new(row: &BlockRow) -> Self
        requires { Kept row.now }
        ensures { result.row ≡ row.now }
    {
        let high = total(row.submitted()) as u16;
        Stack { row: *row, high }
    }

    // What stands in a place of the table without a participant.
    pub(crate) fn nobody() -> Self {
        Stack {
            row: BlockRow {
                bus: 0,
                blocks: Given::new(Block { size: 0, price: 0 }),
            },
            high: 0,
        }
    }

    pub(crate) fn bus(&self) -> u8
        ensures { result ≡ self.now.row.bus }
    {
        self.row.bus
    }

    pub(crate) fn high(&self) -> u16
        ensures { result ≡ high_of self.now.row }
    {
        self.high
    }

    // The price of the block in which the tenth that ends at `level` falls, or 0.
    pub(crate) fn price(&self, level: u16) -> i32
        ensures { result ≡ price_at self.now.row level }
    {
        if 0 < level && level <= self.high {
            block_price(self.row.submitted(), level)
        } else {
            0
        }
    }
}
