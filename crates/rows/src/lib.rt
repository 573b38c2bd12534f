// The rows of a house offer book as they are submitted, and the rules that they are held to.
#![tactic(auto)]

mod cap;
mod class;
mod row;
mod rule;

pub use cap::OfferCap;
pub use class::Class;
pub use row::{Point, Row};
pub use rule::{Rule, check_rows};
