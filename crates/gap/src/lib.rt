// The gap of a dispatch: by how much a feasible one could be worth more at most.
#![tactic(auto)]

mod certificate;
mod forgoing;
mod objecting;
mod slack;

pub use certificate::gap;
pub use objecting::{Objections, objection};
