// What can be asked of a run.

use crate::lists::{BasePoints, ShadowPrices};

// How much all units have to serve, in tenths, and the greatest gap that is accepted, in millionths of a dollar per hour.
#[derive(Clone, Copy)]
pub struct Requirement {
    pub amount: u32,
    pub tolerance: u64,
}

// One line's limit in tenths, and whether the line is competitive.
#[derive(Clone, Copy)]
pub struct LineLimit {
    pub line: usize,
    pub amount: u32,
    pub competitive: bool,
}

// One participant's floor, cap and adder in cents, and whether it is subject to mitigation.
#[derive(Clone, Copy)]
pub struct ParticipantTerm {
    pub participant: usize,
    pub floor: i32,
    pub ceiling: i32,
    pub adder: u32,
    pub subject: bool,
}

// A dispatch for step 1 or 2, with the prices that are to certify it: the system price in cents, and a shadow price for
// each line.
#[derive(Clone, Copy)]
pub struct Proposal {
    // as it was given, and so no `Stage` yet: another number than 1 and 2 has to be declined by its rule
    pub step: u8,
    pub system: i32,
    pub shadow: ShadowPrices,
    pub base: BasePoints,
}

#[derive(Clone, Copy)]
pub enum Call {
    Require(Requirement),
    Limit(LineLimit),
    Term(ParticipantTerm),
    Propose(Proposal),
}
