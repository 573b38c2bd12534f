// The words of a script's lines: how they are taken, which numbers and answers they write, and what can be wrong with them.
#![tactic(auto)]

mod answer;
mod line;
mod mistake;
mod number;

pub use answer::read_yes_or_no;
pub use line::Words;
pub use mistake::Mistake;
pub use number::{Field, read_field, read_number, read_price};
