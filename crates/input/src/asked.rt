// What a script asks of a loaded market, line by line. Its calls stand in a list of their own.

use calls::{BasePoints, Proposal};

#[derive(Clone, Copy)]
pub enum Asked {
    // the answer to the call at this place in the list: the calls lie apart, since a run is played on a slice of them
    Call(usize),
    // a proposal, weighed after so many calls
    Weigh(usize, Proposal),
    // the step of this number, listed after so many calls: another number than 1 and 2 has to be declined by its rule
    Listing(usize, u8),
    Base(BasePoints),
}
