// The entries of a script's lines, read from the words after their first: rows, blocks, shares of a line, reference
// prices, base points, terms, and a number alone.
#![tactic(auto)]

mod base;
mod blocks;
mod line;
mod list;
mod only;
mod priced;
mod reference;
mod row;
mod term;

pub use base::{read_base, read_few_base};
pub use blocks::read_block_row;
pub use line::read_shares;
pub use only::read_only;
pub use reference::{References, read_references};
pub use row::read_row;
pub use term::read_term;
