// The book of owners with block offers: generators whose price is that of the block a level falls in.
#![tactic(auto)]

mod blocks;
mod load;
mod offers;
mod row;
mod rule;
mod stack;
mod stacking;
#[cfg(test)]
mod tests;

pub use offers::BlockBook;
pub use row::{Block, BlockRow};
