// A line of text that is written piece by piece, with no heap, and then copied where it belongs.
#![tactic(auto)]

mod line;
#[cfg(test)]
mod tests;

pub use line::Line;
