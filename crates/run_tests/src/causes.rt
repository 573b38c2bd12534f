// Proposals that are held and proposals that are declined, each with its number and place.

use crate::sample::{ACCEPTED, after, answers, both_held, holds, new_run, propose, require};
use calls::Call;
use std::test::Fail;

#[test]
fn both_steps_are_held(rt: HostRuntime) -> Result<(), Fail> {
    assert_eq!(rt; holds(&new_run()?), (false, false));
    both_held(&rt, &mut after(&rt, 5)?);
    Ok(())
}

// A first step at the usual prices.
fn at(base: [u16; 2]) -> Call {
    propose(1, 3_500, 0, base)
}

// A proposal with one number too many in one of its lists, and a system price out of range.
fn longer(prices: bool) -> Call {
    let mut call = propose(1, 1_000_001, 0, [250, 0]);
    if let Call::Propose(proposal) = &mut call {
        if prices {
            proposal.shadow.push(0);
        } else {
            proposal.base.push(0);
        }
    }
    call
}

// A second step waits for a first, and no other step is known.
#[test]
fn steps_and_lists(rt: HostRuntime) -> Result<(), Fail> {
    answers(
        &rt,
        3,
        &[
            (propose(2, 3_500, 0, [250, 0]), (14, 0)),
            (propose(0, 3_500, 0, [250, 0]), (14, 0)),
            (propose(3, 3_500, 0, [250, 0]), (14, 0)),
            (longer(true), (15, 0)),
            (longer(false), (15, 0)),
        ],
    )
}

// Most have a later cause too, which is not told.
#[test]
fn first_step_causes(rt: HostRuntime) -> Result<(), Fail> {
    answers(
        &rt,
        3,
        &[
            (propose(1, 1_000_001, 1_000_001, [250, 0]), (16, 32)),
            (propose(1, -1_000_001, 1, [250, 0]), (16, 32)),
            (propose(1, 3_500, 1_000_001, [250, 0]), (16, 0)),
            (propose(1, 3_500, 1, [250, 201]), (17, 0)),
            (at([99, 201]), (18, 0)),
            (at([250, 201]), (18, 1)),
            (at([250, 1]), (19, 0)),
            (at([249, 1]), (21, 0)),
        ],
    )
}

// The second step observes the line: it may be priced, and 201 tenths on it are one too many.
#[test]
fn second_step_causes(rt: HostRuntime) -> Result<(), Fail> {
    answers(
        &rt,
        4,
        &[
            (propose(2, 10_000, 7_000, [201, 48]), (19, 0)),
            (propose(2, 10_000, 7_000, [201, 49]), (20, 0)),
            (propose(2, 10_000, 6_989, [200, 50]), (21, 0)),
            (propose(2, 10_000, 6_990, [200, 50]), ACCEPTED),
        ],
    )
}

// A gap of 10,000 is over a tolerance that is one less, and within its own.
#[test]
fn tolerance(rt: HostRuntime) -> Result<(), Fail> {
    answers(
        &rt,
        3,
        &[
            (require(250, 9_999), ACCEPTED),
            (propose(1, 3_520, 0, [250, 0]), (21, 0)),
            (require(250, 10_000), ACCEPTED),
            (propose(1, 3_520, 0, [250, 0]), ACCEPTED),
        ],
    )
}
