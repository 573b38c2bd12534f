// A row of block offers, as submitted: nothing about it is checked yet.

ghost use Rattle.std.specs.Prelude.{◌≡◌, ◌≤◌, length};
ghost use Rattle.block.specs.Blocks.{blocks_of};

use given::Given;

// So many tenths at one price in cents.
#[derive(Clone, Copy, Debug, Eq, PartialEq)]
pub struct Block {
    pub size: u16,
    pub price: i32,
}

// A generator's row. However many blocks were submitted, `blocks` counts them all and has the first ten.
#[derive(Clone, Copy)]
pub struct BlockRow {
    pub bus: u8,
    pub blocks: Given<Block, 10>,
}

impl BlockRow {
    // The submitted blocks, at most ten of them.
    pub fn submitted(&self) -> &[Block]
        ensures value { result.now ≡ blocks_of self.now }
        ensures few { length result.now ≤ 10 }
    {
        self.blocks.as_slice()
    }
}
