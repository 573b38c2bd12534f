// A list in a table of fixed size: what was given, one after another, and how many that were.
#![tactic(auto)]

mod given;
#[cfg(test)]
mod tests;

pub use given::Given;
