// The lines of a script: each is read into a statement, or told what is wrong with its form.
// A later kind of line is a variant of `Statement` and a function that reads its words.
#![tactic(auto)]

mod proposal;
mod statement;
mod terms;

pub use statement::{Statement, read_line};
