// The rules of block offers, and the order in which a book's rows are held to them.

ghost use Rattle.std.specs.Prelude.{◌≡◌, ℕ, ◌<◌, ◌≤◌, length, Some, None, MatchResult, OnOk, slice_index_or};
ghost use Rattle.block.specs.Rules.{broken, cause_of, Kept, fault_from, row_count_fault, blocks_fault};

use crate::blocks::{all_sized, never_fall, total};
use crate::row::BlockRow;
use fault::{Cause, Fault, hold, hold_count};

// What a row by itself can break, in the order in which rows are looked at.
#[derive(Clone, Copy)]
pub enum Rule {
    Bus,
    Count,
    Sizes,
    Prices,
}

impl fault::Rule for Rule {
    type Row = BlockRow;

    ghost broken = { broken };

    ghost named = { cause_of };

    fn cause(&self) -> Cause {
        match self {
            Rule::Bus => Cause::BusNumber,
            Rule::Count => Cause::PointCount,
            Rule::Sizes => Cause::CurveLevels,
            Rule::Prices => Cause::CurvePrices,
        }
    }

    fn is_broken_by(&self, row: &BlockRow) -> bool {
        match self {
            Rule::Bus => row.bus > 63,
            Rule::Count => row.blocks.count > 10,
            Rule::Sizes => !all_sized(row.submitted()) || total(row.submitted()) > 20_000,
            Rule::Prices => !never_fall(-25_000, 1_000_000, row.submitted()),
        }
    }
}

// Whether rows keep every rule; else the first fault: by number, and within a number by row.
pub fn check_rows(rows: &[BlockRow]) -> Result<(), Fault>
    ensures value { MatchResult result (λ _. blocks_fault rows.now ≡ None) (λ f. blocks_fault rows.now ≡ Some f) }
    ensures few { OnOk result (length rows.now ≤ 64) }
    ensures kept { OnOk result ((i : ℕ) (d : BlockRow) → i < length rows.now → Kept (slice_index_or rows.now i d)) }
{
    hold_count(rows, 64, Cause::RowCount)?;
    hold(&Rule::Bus, rows)?;
    hold(&Rule::Count, rows)?;
    hold(&Rule::Sizes, rows)?;
    hold(&Rule::Prices, rows)?;
    Ok(())
}
