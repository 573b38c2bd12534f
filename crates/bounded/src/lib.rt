// The bounded book: mitigation over any offer book, and an offer book again.
#![tactic(auto)]

mod bounded;
mod layer;
mod offers;
mod table;
mod tabling;
mod term;
mod terms;

pub use bounded::Bounded;
pub use table::Table;
pub use term::Term;
