// A house book of a generator, a load and a generator that follows an Output Schedule.

use crate::sample::{book_of, row, told};
use book::OfferBook;
use house::HouseBook;
use rows::Row;
use std::test::Fail;

fn generator() -> Row {
    row('N', 3, [100, 120, 280, 300], 50, [2_000, 4_000])
}

fn book() -> Result<HouseBook, Fail> {
    let load = row('L', 5, [0, 0, 200, 200], 150, [5_000, 3_000]);
    // none was submitted: the two that stand there mean nothing
    let mut points = generator().points;
    points.count = 0;
    let scheduled = Row {
        bus: 63,
        reading: 200,
        points,
        ..generator()
    };
    book_of(&[generator(), load, scheduled])
}

#[test]
fn participants(rt: HostRuntime) -> Result<(), Fail> {
    let book = book()?;
    assert_eq!(rt; book.count(), 3);
    for (participant, bus, side, low, high, reading) in [
        (0, 3, 1, 120, 280, 0),
        (1, 5, -1, 0, 200, 150),
        (2, 63, 1, 120, 280, 0),
        (3, 0, 0, 0, 0, 0),
        (64, 0, 0, 0, 0, 0),
    ] {
        assert_eq!(rt; book.bus(participant), bus);
        assert_eq!(rt; book.side(participant).map_or(0, |side| side.sign()), side);
        assert_eq!(rt; book.low(participant), low);
        assert_eq!(rt; book.high(participant), high);
        assert_eq!(rt; book.reading(participant), reading);
    }
    Ok(())
}

#[test]
fn prices(rt: HostRuntime) -> Result<(), Fail> {
    let book = book()?;
    for (participant, level, price) in [
        (0, 120, 0),
        (0, 121, 2_210),
        (0, 280, 3_800),
        (0, 281, 0),
        (1, 0, 0),
        (1, 1, 4_990),
        (1, 200, 3_000),
        (3, 121, 0),
        (64, 1, 0),
    ] {
        assert_eq!(rt; book.price(participant, level), price);
    }
    Ok(())
}

#[test]
fn faults(rt: HostRuntime) {
    let astray = Row {
        bus: 64,
        ..generator()
    };
    assert_eq!(rt; told(HouseBook::load(500_000, &[])), (0, 0));
    assert_eq!(rt; told(HouseBook::load(0, &[astray])), (1, 0));
    assert_eq!(rt;
        told(HouseBook::load(500_000, &[generator(), astray])),
        (4, 1)
    );
}
