// A row of a block book: `block 0 100:2000 50:3000` is bus and blocks.

ghost use Rattle.std.specs.Prelude.{MatchResult};
ghost use Rattle.words.specs.Next.{left};
ghost use Rattle.words.specs.Plain.{IsPlain};
ghost use Rattle.entries.specs.Priced.{IsBlock};
ghost use Rattle.entries.specs.Rows.{IsBlockRow};

use crate::list::read_counted;
use crate::priced::read_priced;
use block::{Block, BlockRow};
use words::{Mistake, Words, read_field};

pub fn read_block_row(mut words: Words) -> Result<BlockRow, Mistake>
    ensures { MatchResult result (IsBlockRow (left words.entry)) IsPlain }
{
    let bus = read_field(words.word()?)?;
    let blocks = read_counted(words, Block { size: 0, price: 0 }, read_block)?;
    Ok(BlockRow { bus, blocks })
}

fn read_block(word: &str) -> Result<Block, Mistake>
    ensures { MatchResult result (IsBlock word.now) IsPlain }
{
    let (size, price) = read_priced(word, Mistake::NotABlock)?;
    Ok(Block { size, price })
}
