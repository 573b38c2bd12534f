// Blocks one above another: their sizes, their prices, and which of them a level falls in.

ghost use Rattle.std.specs.Prelude.{◌≡◌, ◌≤◌, length};
ghost use Rattle.block.specs.Blocks.{sizes, block_price};
ghost use Rattle.block.specs.Rules.{sized, prices_from};

use crate::row::Block;

// The sum of the sizes.
pub fn total(blocks: &[Block]) -> u32
    requires { length blocks.now ≤ 10 }
    ensures { result ≡ sizes blocks.now }
{
    let mut sum = 0;
    for block in blocks {
        sum += block.size as u32;
    }
    sum
}

// Whether no size is 0.
pub fn all_sized(blocks: &[Block]) -> bool
    ensures { result ≡ sized blocks.now }
{
    blocks.iter().all(|block| block.size > 0)
}

// Whether the prices stay from `floor` to `top` and never fall.
pub fn never_fall(floor: i32, top: i32, blocks: &[Block]) -> bool
    ensures { result ≡ prices_from floor top blocks.now }
{
    let mut least = floor;
    for block in blocks {
        if block.price < least || block.price > top {
            return false;
        }
        least = block.price;
    }
    true
}

// The price of the first block whose end is not below the level; past all blocks 0.
pub fn block_price(blocks: &[Block], level: u16) -> i32
    ensures { result ≡ block_price blocks.now level }
{
    let mut end: u32 = 0;
    for block in blocks {
        end += block.size as u32;
        if level as u32 <= end {
            return block.price;
        }
    }
    0
}
