// The gap and the worth in a market of the greatest size, for a program outside to call and time.
#![tactic(auto)]

mod lines;
mod offers;
mod widest;

pub use widest::{widest_gap, widest_worth};
