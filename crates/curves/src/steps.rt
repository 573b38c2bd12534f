// The corners of a row of blocks: its first level, the last of each block, and the one after that.

ghost use Rattle.std.specs.Prelude.{◌≡◌, ◌≤◌, length};
ghost use Rattle.curves.specs.Steps.{ends_at};

use crate::corners::Corners;
use block::{Block, BlockRow};

impl Corners for BlockRow {
    fn corner_after(&self, below: u16) -> bool {
        below == 0 || ends_at(self.submitted(), below) || ends_at(self.submitted(), below + 1)
    }
}

// Whether one of the blocks ends at the level.
fn ends_at(blocks: &[Block], level: u16) -> bool
    requires { length blocks.now ≤ 10 }
    ensures { result ≡ ends_at 0 blocks.now level }
{
    let mut end: u32 = 0;
    for block in blocks {
        end += u32::from(block.size);
        if end == u32::from(level) {
            return true;
        }
    }
    false
}
