// What each call drops of the steps that are held.

use crate::sample::{after, asked, holds, limit, propose, require, term};
use calls::Call;
use std::process::Abort;
use std::test::Fail;

// Compares which steps are held after each call alone, where both were held.
fn left(rt: &impl Abort, asks: &[(Call, (bool, bool))]) -> Result<(), Fail> {
    for ask in asks {
        let mut run = after(rt, 5)?;
        let _ = asked(&mut run, &ask.0);
        assert_eq!(rt; holds(&run), ask.1);
    }
    Ok(())
}

// Each sets what is in force or held already, and drops all the same.
#[test]
fn accepted_calls(rt: HostRuntime) -> Result<(), Fail> {
    left(
        &rt,
        &[
            (require(250, 0), (false, false)),
            (limit(0, 200, false), (false, false)),
            (term(1, -25_000, 10_000, 100), (true, false)),
            (propose(1, 3_500, 0, [250, 0]), (true, false)),
            (propose(2, 10_000, 7_000, [200, 50]), (true, true)),
        ],
    )
}

#[test]
fn declined_calls(rt: HostRuntime) -> Result<(), Fail> {
    left(
        &rt,
        &[
            (require(2_000_001, 0), (true, true)),
            (limit(0, 1_000_001, true), (true, true)),
            (term(1, 0, 0, 1), (true, true)),
            (propose(1, 3_520, 0, [250, 0]), (true, true)),
            (propose(2, 3_500, 0, [250, 0]), (true, true)),
        ],
    )
}
