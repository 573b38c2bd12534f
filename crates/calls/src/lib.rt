// The calls of a run, as plain values: nothing about them is checked yet.
#![tactic(auto)]

mod call;
mod lists;

pub use call::{Call, LineLimit, ParticipantTerm, Proposal, Requirement};
pub use lists::{BasePoints, ShadowPrices};
