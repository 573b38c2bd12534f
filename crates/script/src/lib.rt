// The lines of a script that describes a market: each is read into a statement, or told what is wrong with its form.
// A later kind of line is a variant of `Statement` and a function that reads its words.
#![tactic(auto)]

mod statement;
#[cfg(test)]
mod tests;

pub use statement::{Statement, read_line};
