// The calls that set an entry: what is absent, and the ends of each range with one past them.

use crate::sample::{ACCEPTED, answers, limit, require, term};
use std::test::Fail;

// A line is looked for before its limit.
#[test]
fn requirements_and_limits(rt: HostRuntime) -> Result<(), Fail> {
    answers(
        &rt,
        0,
        &[
            (require(0, 0), ACCEPTED),
            (require(2_000_000, 1_000_000_000_000), ACCEPTED),
            (require(2_000_001, 0), (13, 0)),
            (require(0, 1_000_000_000_001), (13, 0)),
            (limit(0, 0, true), ACCEPTED),
            (limit(0, 1_000_000, true), ACCEPTED),
            (limit(0, 1_000_001, true), (13, 0)),
            (limit(1, 1_000_001, true), (12, 1)),
        ],
    )
}

// A participant is looked for before its numbers; an adder goes up to a hundredth of the cap, rounded down.
#[test]
fn terms(rt: HostRuntime) -> Result<(), Fail> {
    answers(
        &rt,
        0,
        &[
            (term(1, -25_000, 0, 0), ACCEPTED),
            (term(1, 1_000_000, 1_000_000, 10_000), ACCEPTED),
            (term(1, -25_001, 0, 0), (13, 1)),
            (term(1, 1_000_001, 0, 0), (13, 1)),
            (term(1, 0, -1, 0), (13, 1)),
            (term(1, 0, 1_000_001, 0), (13, 1)),
            (term(1, 0, 10_099, 100), ACCEPTED),
            (term(1, 0, 10_099, 101), (13, 1)),
            (term(2, -25_001, 0, 0), (12, 2)),
        ],
    )
}
