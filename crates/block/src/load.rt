// How rows become a book, and what the book answers.

ghost use Rattle.std.specs.Prelude.{◌≡◌, ℕ, ◌<◌, ◌≤◌, length, get_or, IfOk, Some, None, MatchOption, MatchResult, slice_index_or};
ghost use Rattle.block.specs.Blocks.{blank, sizes, price_from};
ghost use Rattle.block.specs.Rules.{Kept, blocks_fault};
ghost use Rattle.block.specs.Offers.{nobody, offered, blocked, row_at, Blockwise};
ghost use borrow.Author.Rules.{rules};
ghost use Rattle.std.proofs.Common.{arith};

use crate::offers::BlockBook;
use crate::row::BlockRow;
use crate::rule::check_rows;
use crate::stack::Stack;
use book::{OfferBook, Side};
use fault::Fault;
use given::Given;

impl BlockBook {
    // The book of the rows, unless one breaks a rule; then the first fault, by number and then by row.
    pub fn load(rows: &[BlockRow]) -> Result<BlockBook, Fault>
        ensures value { MatchResult result (λ b. (blocks_fault rows.now ≡ None) × (offered b ≡ blocked rows.now)) (λ f. blocks_fault rows.now ≡ Some f) }
        ensures prices { IfOk result (λ b. Blockwise rows.now (offered b)) }
    {
        check_rows(rows)?;
        Ok(BlockBook {
            stacks: stacks_of(rows),
        })
    }
}

// A participant for each row, in their order.
fn stacks_of(rows: &[BlockRow]) -> Given<Stack, 64>
    requires few { length rows.now ≤ 64 }
    requires kept { (i : ℕ) (d : BlockRow) → i < length rows.now → Kept (slice_index_or rows.now i d) }
    ensures count { result.count ≡ length rows.now }
    ensures same { (i : ℕ) → i < length rows.now → (get_or result.items i nobody).row ≡ slice_index_or rows.now i blank }
{
    let mut stacks = Given::new(Stack::nobody());
    for row in rows {
        stacks.push(Stack::new(row));
    }
    stacks
}

impl BlockBook {
    // The participant of this number.
    fn stack(&self, participant: usize) -> Option<&Stack>
        ensures { MatchOption result ((self.now.stacks.count ≤ participant) × (row_at self.now participant ≡ blank)) (λ stack. (participant < self.now.stacks.count) × (stack.now.row ≡ row_at self.now participant)) }
    {
        self.stacks.get(participant)
    }
}

impl OfferBook for BlockBook {
    ghost meaning = { offered };

    ghost lawful = { unfold sizes price_from in Prim.search rules };

    ghost few = { Prim.search rules };

    ghost buses = { Prim.search rules };

    ghost limits = { Prim.search rules };

    ghost highest = { unfold sizes in Prim.search rules };

    ghost readings = { Prim.search rules };

    ghost least = { unfold sizes price_from in Prim.search rules };

    ghost most = { unfold sizes price_from in Prim.search rules };

    fn count(&self) -> usize {
        self.stacks.count
    }

    fn bus(&self, participant: usize) -> u8 {
        self.stack(participant).map_or(0, |stack| stack.bus())
    }

    fn side(&self, participant: usize) -> Option<Side> {
        self.stack(participant).map(|_| Side::Generator)
    }

    fn low(&self, _participant: usize) -> u16 {
        0
    }

    #[tactic(auto, unfolding(crate::specs::Blocks::sizes))]
    fn high(&self, participant: usize) -> u16 {
        self.stack(participant).map_or(0, |stack| stack.high())
    }

    fn reading(&self, _participant: usize) -> u16 {
        0
    }

    #[tactic(auto, unfolding(crate::specs::Blocks::sizes, crate::specs::Blocks::price_from))]
    fn price(&self, participant: usize, level: u16) -> i32 {
        self.stack(participant)
            .map_or(0, |stack| stack.price(level))
    }
}
