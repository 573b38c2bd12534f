// A thermal unit at bus 0 and a committed one at bus 1, with one line that takes the whole of bus 0.

use dispatch::Dispatch;
use fault::Fault;
use feasible::{Constraints, Infeasible, Stage, Step, infeasible};
use gap::{gap, objection};
use given::Given;
use house::HouseBook;
use market::{Quote, forgone, lmp, tenth_gain, worth};
use network::TableNetwork;
use rows::{Point, Row};
use std::test::Fail;

// This market stands again in the tests of runs: a crate for both would be public functions without a promise.
fn unit(letter: char, bus: u8, lsl: u16, hsl: u16) -> Row {
    Row {
        letter,
        bus,
        lsl,
        ldl: lsl,
        hdl: hsl,
        hsl,
        reading: 0,
        points: Given::new(Point { level: 0, price: 0 }),
    }
}

fn book() -> Result<HouseBook, Fault> {
    let mut thermal = unit('N', 0, 100, 300);
    thermal.points.push(Point {
        level: 100,
        price: 2_000,
    });
    thermal.points.push(Point {
        level: 300,
        price: 4_000,
    });
    HouseBook::load(500_000, &[thermal, unit('R', 1, 0, 200)])
}

fn network() -> Result<TableNetwork, Fault> {
    let mut shares = [0; 64];
    shares[0] = 1_000;
    TableNetwork::load(&[shares])
}

fn declined() -> Fail {
    Fail::new("declined")
}

#[test]
fn prices_at_the_buses(rt: HostRuntime) -> Result<(), Fail> {
    let Ok(book) = book() else {
        return Err(declined());
    };
    let Ok(network) = network() else {
        return Err(declined());
    };
    let Some(quote) = Quote::new(10_000, &[7_000]) else {
        return Err(declined());
    };
    assert_eq!(rt; lmp(&book, &network, &quote, 0), 3_000_000);
    assert_eq!(rt; lmp(&book, &network, &quote, 1), 10_000_000);
    assert_eq!(rt; quote.shadow(0), 7_000);
    assert_eq!(rt; quote.shadow(1), 0);
    Ok(())
}

#[test]
fn worth_of_a_dispatch(rt: HostRuntime) -> Result<(), Fail> {
    let Ok(book) = book() else {
        return Err(declined());
    };
    let Some(dispatch) = Dispatch::new(&[250, 0]) else {
        return Err(declined());
    };
    assert_eq!(rt; worth(&book, &dispatch), -413_250);
    Ok(())
}

#[test]
fn forgone_gains(rt: HostRuntime) -> Result<(), Fail> {
    let Ok(book) = book() else {
        return Err(declined());
    };
    let Ok(network) = network() else {
        return Err(declined());
    };
    let Some(sound) = Quote::new(3_500, &[0]) else {
        return Err(declined());
    };
    assert_eq!(rt; forgone(&book, &network, &sound, 0, 250), Some(0));
    assert_eq!(rt; forgone(&book, &network, &sound, 1, 0), Some(0));
    assert_eq!(rt; forgone(&book, &network, &sound, 1, 1), Some(21_500_000));
    let Some(dear) = Quote::new(3_520, &[0]) else {
        return Err(declined());
    };
    assert_eq!(rt; forgone(&book, &network, &dear, 0, 250), Some(10_000));
    assert_eq!(rt; forgone(&book, &network, &dear, 0, 99), None);
    assert_eq!(rt; forgone(&book, &network, &dear, 0, 301), None);
    assert_eq!(rt; forgone(&book, &network, &dear, 2, 0), None);
    Ok(())
}

#[test]
fn quotes_in_range(rt: HostRuntime) {
    assert!(rt; Quote::new(1_000_000, &[1_000_000; 32]).is_some());
    assert!(rt; Quote::new(-1_000_000, &[]).is_some());
    assert!(rt; Quote::new(1_000_001, &[]).is_none());
    assert!(rt; Quote::new(-1_000_001, &[]).is_none());
    assert!(rt; Quote::new(0, &[1_000_001]).is_none());
    assert!(rt; Quote::new(0, &[0; 33]).is_none());
}

fn step(stage: Stage) -> Option<Step> {
    let mut constraints = Constraints::new();
    constraints.require(250).ok()?;
    constraints.limit(0, 200, false).ok()?;
    Some(Step { constraints, stage })
}

fn gap_at(stage: Stage, system: i32, shadow: u32, base: [u16; 2]) -> Option<i64> {
    let book = book().ok()?;
    let network = network().ok()?;
    let quote = Quote::new(system, &[shadow])?;
    let dispatch = Dispatch::new(&base)?;
    gap(&book, &network, &step(stage)?, &quote, &dispatch)
}

#[test]
fn gaps(rt: HostRuntime) {
    assert_eq!(rt; gap_at(Stage::First, 3_500, 0, [250, 0]), Some(0));
    assert_eq!(rt; gap_at(Stage::First, 3_520, 0, [250, 0]), Some(10_000));
    assert_eq!(rt; gap_at(Stage::First, 3_500, 0, [249, 1]), Some(21_500_000));
    assert_eq!(rt; gap_at(Stage::First, 3_510, 10, [250, 0]), Some(0));
    assert_eq!(rt; gap_at(Stage::Second, 3_510, 10, [250, 0]), Some(-500_000));
    assert_eq!(rt; gap_at(Stage::First, 3_500, 0, [99, 151]), None);
}

fn why(stage: Stage, base: [u16; 2]) -> Option<Result<(), Infeasible>> {
    let book = book().ok()?;
    let network = network().ok()?;
    let dispatch = Dispatch::new(&base)?;
    Some(infeasible(&book, &network, &dispatch, &step(stage)?))
}

#[test]
fn reasons_in_order(rt: HostRuntime) {
    assert_eq!(rt; why(Stage::First, [250, 0]), Some(Ok(())));
    assert_eq!(rt;
        why(Stage::Second, [250, 201]),
        Some(Err(Infeasible::OutsideLimits(1)))
    );
    assert_eq!(rt;
        why(Stage::Second, [250, 1]),
        Some(Err(Infeasible::OutOfBalance))
    );
    assert_eq!(rt;
        why(Stage::Second, [250, 0]),
        Some(Err(Infeasible::Overloaded(0)))
    );
    assert_eq!(rt; why(Stage::Second, [200, 50]), Some(Ok(())));
}

#[test]
fn constraints_in_range(rt: HostRuntime) {
    let mut constraints = Constraints::new();
    assert!(rt; constraints.require(2_000_000).is_ok());
    assert!(rt; constraints.require(2_000_001).is_err());
    assert!(rt; constraints.limit(31, 0, false).is_ok());
    assert!(rt; constraints.limit(32, 0, false).is_err());
    assert!(rt; constraints.limit(0, 1_000_001, false).is_err());
    let first = Step {
        constraints,
        stage: Stage::First,
    };
    let second = Step {
        constraints,
        stage: Stage::Second,
    };
    assert!(rt; first.observes(0));
    assert!(rt; !first.observes(31));
    assert!(rt; second.observes(31));
    assert_eq!(rt; first.room(0), 1_000_000_000);
    assert_eq!(rt; first.room(31), 0);
}

#[test]
fn steps_by_number(rt: HostRuntime) {
    assert_eq!(rt; Stage::try_from(1).ok(), Some(Stage::First));
    assert_eq!(rt; Stage::try_from(2).ok(), Some(Stage::Second));
    assert_eq!(rt; Stage::try_from(0).ok(), None);
    assert_eq!(rt; Stage::try_from(3).ok(), None);
}

// Whether the last and the next tenth of a participant object.
fn objects(system: i32, base: [u16; 2], participant: usize) -> Option<(bool, bool)> {
    let book = book().ok()?;
    let network = network().ok()?;
    let quote = Quote::new(system, &[0])?;
    let dispatch = Dispatch::new(&base)?;
    let objections = objection(&book, &network, &quote, &dispatch, participant);
    Some((objections.last, objections.next))
}

#[test]
fn objecting_tenths(rt: HostRuntime) {
    assert_eq!(rt; objects(3_500, [250, 0], 0), Some((false, false)));
    assert_eq!(rt; objects(3_520, [250, 0], 0), Some((false, true)));
    assert_eq!(rt; objects(3_520, [250, 0], 1), Some((false, false)));
    assert_eq!(rt; objects(3_500, [249, 1], 0), Some((false, false)));
    assert_eq!(rt; objects(3_500, [249, 1], 1), Some((true, false)));
    assert_eq!(rt; objects(3_490, [250, 0], 0), Some((true, false)));
    assert_eq!(rt; objects(1_000_000, [300, 0], 0), Some((false, false)));
    assert_eq!(rt; objects(-1_000_000, [100, 0], 0), Some((false, false)));
    assert_eq!(rt; objects(1_000_000, [250, 0], 2), Some((false, false)));
}

#[test]
fn gains_of_tenths(rt: HostRuntime) -> Result<(), Fail> {
    let Ok(book) = book() else {
        return Err(declined());
    };
    let Ok(network) = network() else {
        return Err(declined());
    };
    let Some(quote) = Quote::new(3_520, &[0]) else {
        return Err(declined());
    };
    assert_eq!(rt; tenth_gain(&book, &network, &quote, 0, 250), 20_000);
    assert_eq!(rt; tenth_gain(&book, &network, &quote, 0, 252), 0);
    assert_eq!(rt; tenth_gain(&book, &network, &quote, 1, 1), -21_480_000);
    assert_eq!(rt; tenth_gain(&book, &network, &quote, 2, 1), 0);
    Ok(())
}
