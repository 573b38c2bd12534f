// Why an input is declined: a closed list of causes, each with its number and layer, and a fault,
// which is a cause at a place, with the line that tells it; and the order in which rows are held to rules.
#![tactic(auto)]

mod cause;
mod refusal;
mod rule;
#[cfg(test)]
mod tests;

pub use cause::{Cause, Fault, Layer};
pub use rule::{Rule, hold, hold_count};
