// Calls in one list.

use crate::sample::{ACCEPTED, book, both_held, network, propose, told, usual};
use calls::Call;
use fault::{Cause, Fault};
use house::HouseBook;
use network::TableNetwork;
use run::{Run, play};
use std::process::Abort;
use std::test::Fail;

// The usual calls, with a second step that comes too early, and a third step last.
fn listed() -> [Call; 7] {
    let [require, limit, term, first, second] = usual();
    [
        require,
        limit,
        term,
        second,
        first,
        second,
        propose(3, 0, 0, [0, 0]),
    ]
}

fn played(answers: &mut [Option<Fault>]) -> Result<Run<HouseBook, TableNetwork>, Fail> {
    Ok(play(book()?, network()?, &listed(), answers))
}

fn compare(rt: &impl Abort, answers: &[Option<Fault>], expected: &[(u8, usize)]) {
    for (answer, fault) in answers.iter().zip(expected) {
        assert_eq!(rt; told(*answer), *fault);
    }
}

// What stands in a place for an answer at first.
fn before() -> Option<Fault> {
    Some(Fault {
        cause: Cause::NotHeld,
        place: 7,
    })
}

// Places past the last call stay as they were.
#[test]
fn more_answers(rt: HostRuntime) -> Result<(), Fail> {
    let mut answers = [before(); 8];
    let mut run = played(&mut answers)?;
    compare(
        &rt,
        &answers,
        &[
            ACCEPTED,
            ACCEPTED,
            ACCEPTED,
            (14, 0),
            ACCEPTED,
            ACCEPTED,
            (14, 0),
            (26, 7),
        ],
    );
    both_held(&rt, &mut run);
    Ok(())
}

// Every call is made, and its answer left out where there is no room.
#[test]
fn fewer_answers(rt: HostRuntime) -> Result<(), Fail> {
    let mut answers = [before(); 4];
    let mut run = played(&mut answers)?;
    compare(&rt, &answers, &[ACCEPTED, ACCEPTED, ACCEPTED, (14, 0)]);
    both_held(&rt, &mut run);
    Ok(())
}
