// A thermal unit at bus 0 and a committed one at bus 1, with one line that takes the whole of bus 0, and calls on a run
// over them.

use calls::{Call, LineLimit, ParticipantTerm, Proposal, Requirement};
use fault::Fault;
use feasible::Stage;
use given::Given;
use house::HouseBook;
use network::TableNetwork;
use rows::{Point, Row};
use run::Run;
use std::process::Abort;
use std::test::Fail;

// Neither number nor place.
pub(crate) const ACCEPTED: (u8, usize) = (0, 0);

fn unit(letter: char, bus: u8, lsl: u16, hsl: u16) -> Row {
    Row {
        letter,
        bus,
        lsl,
        ldl: lsl,
        hdl: hsl,
        hsl,
        reading: 0,
        points: Given::new(Point { level: 0, price: 0 }),
    }
}

pub(crate) fn book() -> Result<HouseBook, Fail> {
    let mut thermal = unit('N', 0, 100, 300);
    thermal.points.push(Point {
        level: 100,
        price: 2_000,
    });
    thermal.points.push(Point {
        level: 300,
        price: 4_000,
    });
    match HouseBook::load(500_000, &[thermal, unit('R', 1, 0, 200)]) {
        Ok(book) => Ok(book),
        Err(_) => Err(Fail::new("the rows break a rule")),
    }
}

pub(crate) fn network() -> Result<TableNetwork, Fail> {
    let mut shares = [0; 64];
    shares[0] = 1_000;
    match TableNetwork::load(&[shares]) {
        Ok(network) => Ok(network),
        Err(_) => Err(Fail::new("the lines break a rule")),
    }
}

pub(crate) fn new_run() -> Result<Run<HouseBook, TableNetwork>, Fail> {
    Ok(Run::new(book()?, network()?))
}

pub(crate) fn require(amount: u32, tolerance: u64) -> Call {
    Call::Require(Requirement { amount, tolerance })
}

pub(crate) fn limit(line: usize, amount: u32, competitive: bool) -> Call {
    Call::Limit(LineLimit {
        line,
        amount,
        competitive,
    })
}

pub(crate) fn term(participant: usize, floor: i32, ceiling: i32, adder: u32) -> Call {
    Call::Term(ParticipantTerm {
        participant,
        floor,
        ceiling,
        adder,
        subject: true,
    })
}

// A proposal with one shadow price and two base points.
pub(crate) fn propose(step: u8, system: i32, shadow: u32, base: [u16; 2]) -> Call {
    let mut prices = Given::new(0);
    prices.push(shadow);
    let mut points = Given::new(0);
    points.append(&base);
    Call::Propose(Proposal {
        step,
        system,
        shadow: prices,
        base: points,
    })
}

// Number and place of a fault, or two zeros.
pub(crate) fn told(answer: Option<Fault>) -> (u8, usize) {
    match answer {
        Some(fault) => (fault.cause.number(), fault.place),
        None => ACCEPTED,
    }
}

// What a run answers to a call.
pub(crate) fn asked(run: &mut Run<HouseBook, TableNetwork>, call: &Call) -> (u8, usize) {
    told(run.call(call).err())
}

// Whether the first and the second step are held.
pub(crate) fn holds(run: &Run<HouseBook, TableNetwork>) -> (bool, bool) {
    (
        run.held(Stage::First).is_some(),
        run.held(Stage::Second).is_some(),
    )
}

// The gap and the worth of a step, if it is held.
fn held(run: &mut Run<HouseBook, TableNetwork>, stage: Stage) -> Option<(i64, i64)> {
    let held = run.held(stage)?;
    let worth = run.worth(stage)?;
    Some((held.gap, worth))
}

// Both steps of the usual calls are held, with gap and worth.
pub(crate) fn both_held(rt: &impl Abort, run: &mut Run<HouseBook, TableNetwork>) {
    assert_eq!(rt; held(run, Stage::First), Some((0, -413_250)));
    assert_eq!(rt; held(run, Stage::Second), Some((0, -750_500)));
}

// The calls of the documents: what is in force, and both steps.
pub(crate) fn usual() -> [Call; 5] {
    [
        require(250, 0),
        limit(0, 200, false),
        term(1, -25_000, 10_000, 100),
        propose(1, 3_500, 0, [250, 0]),
        propose(2, 10_000, 7_000, [200, 50]),
    ]
}

// A run that has accepted the first of these calls, up to five.
pub(crate) fn after(rt: &impl Abort, count: usize) -> Result<Run<HouseBook, TableNetwork>, Fail> {
    let mut run = new_run()?;
    for call in usual().iter().take(count) {
        assert_eq!(rt; asked(&mut run, call), ACCEPTED);
    }
    Ok(run)
}

// Compares the answers to calls, one after another, after the first of the usual ones.
pub(crate) fn answers(
    rt: &impl Abort,
    count: usize,
    asks: &[(Call, (u8, usize))],
) -> Result<(), Fail> {
    let mut run = after(rt, count)?;
    for ask in asks {
        assert_eq!(rt; asked(&mut run, &ask.0), ask.1);
    }
    Ok(())
}
