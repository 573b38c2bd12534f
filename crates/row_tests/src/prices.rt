// Prices of completed curves, by class.

use crate::sample::*;
use curve::Curve;
use rows::{OfferCap, Row};
use std::process::Abort;
use std::test::Fail;

// The number of the row's completed points, and its prices at some levels.
fn check_prices(
    rt: &impl Abort,
    cents: u32,
    row: Row,
    count: usize,
    prices: &[(u16, i32)],
) -> Result<(), Fail> {
    let Ok(offer_cap) = OfferCap::new(cents) else {
        return Err(Fail::new("a cap in range"));
    };
    let Ok(curve) = Curve::complete(offer_cap, &row) else {
        return Err(Fail::new("a class letter"));
    };
    assert_eq!(rt; curve.points().len(), count);
    for (level, price) in prices {
        assert_eq!(rt; curve.price(*level), *price, "level {level}");
    }
    Ok(())
}

// The ends stand at LSL and HSL, not at LDL and HDL; the knee at ten tenths before the first point.
#[test]
fn submitted_points(rt: HostRuntime) -> Result<(), Fail> {
    check_prices(
        &rt,
        1_000,
        plain('N'),
        5,
        &[
            (0, -25_000),
            (100, -25_000),
            (110, -24_999),
            (115, -12_475),
            (120, 50),
            (400, 50),
        ],
    )?;
    let row = two('I', (110, -25_000), (400, 500));
    check_prices(
        &rt,
        1_000,
        row,
        3,
        &[
            (100, -25_000),
            (110, -25_000),
            (255, -12_250),
            (400, 500),
            (401, 500),
        ],
    )?;
    let row = two('N', (111, -25_000), (350, 500));
    check_prices(
        &rt,
        1_000,
        row,
        5,
        &[
            (100, -25_000),
            (101, -25_000),
            (111, -25_000),
            (349, 393),
            (350, 500),
        ],
    )?;
    check_prices(
        &rt,
        1_000,
        two('N', (100, 7), (400, 7)),
        2,
        &[(0, 7), (65_535, 7)],
    )
}

#[test]
fn schedules(rt: HostRuntime) -> Result<(), Fail> {
    let row = bare('N');
    check_prices(
        &rt,
        1_000,
        row,
        4,
        &[
            (199, -25_000),
            (200, -24_999),
            (201, -22_400),
            (210, 999),
            (300, 999),
            (399, 999),
            (400, 1_000),
        ],
    )?;
    // ten tenths above the schedule lie below HSL, at it, and above it
    check_prices(
        &rt,
        1_000,
        Row {
            reading: 389,
            ..row
        },
        4,
        &[(398, -1_601), (399, 999), (400, 1_000)],
    )?;
    check_prices(
        &rt,
        1_000,
        Row {
            reading: 390,
            ..row
        },
        4,
        &[(390, -24_999), (400, 999), (401, 1_000)],
    )?;
    check_prices(
        &rt,
        1_000,
        Row {
            reading: 395,
            ..row
        },
        4,
        &[(395, -24_999), (399, -4_201), (400, 999), (401, 1_000)],
    )?;
    // the schedule is HSL, and LSL
    check_prices(
        &rt,
        1_000,
        Row {
            reading: 400,
            ..row
        },
        4,
        &[(399, -25_000), (400, -24_999), (401, 1_000)],
    )?;
    check_prices(
        &rt,
        1_000,
        Row {
            reading: 100,
            ..row
        },
        4,
        &[(100, -25_000), (101, -22_400), (110, 999)],
    )
}

#[test]
fn renewables(rt: HostRuntime) -> Result<(), Fail> {
    let row = bare('I');
    check_prices(
        &rt,
        1_000,
        row,
        3,
        &[
            (300, -25_000),
            (390, -24_999),
            (395, 62_500),
            (400, 150_000),
            (401, 150_000),
        ],
    )?;
    let row = Row {
        lsl: 395,
        ldl: 395,
        hdl: 400,
        ..row
    };
    check_prices(
        &rt,
        1_000,
        row,
        3,
        &[(395, -25_000), (396, 10_000), (400, 150_000)],
    )?;
    check_prices(
        &rt,
        1_000,
        Row {
            lsl: 0,
            ldl: 0,
            hdl: 5,
            hsl: 5,
            ..row
        },
        3,
        &[(0, -25_000), (1, 10_000), (5, 150_000)],
    )
}

// The least price is taken of the line, not of its ends.
#[test]
fn committed_units(rt: HostRuntime) -> Result<(), Fail> {
    let row = two('R', (120, 0), (220, 50_000));
    check_prices(
        &rt,
        100_000,
        row,
        2,
        &[
            (0, 25_000),
            (169, 25_000),
            (170, 25_000),
            (171, 25_500),
            (180, 30_000),
            (400, 50_000),
        ],
    )?;
    check_prices(&rt, 100_000, bare('R'), 0, &[(0, 25_000), (400, 25_000)])
}

// A bid is shifted to end at HSL, not at HDL, and is rounded down where it falls.
#[test]
fn loads(rt: HostRuntime) -> Result<(), Fail> {
    let row = two('L', (0, 1_000), (300, 700));
    check_prices(
        &rt,
        1_000,
        row,
        2,
        &[
            (0, 1_000),
            (100, 1_000),
            (250, 850),
            (300, 800),
            (400, 700),
            (401, 700),
        ],
    )?;
    check_prices(
        &rt,
        1_000,
        two('L', (0, 1_000), (3, 990)),
        2,
        &[(397, 1_000), (398, 996), (399, 993), (400, 990)],
    )?;
    check_prices(
        &rt,
        1_000,
        two('L', (0, -1), (3, -2)),
        2,
        &[(397, -1), (398, -2), (400, -2)],
    )?;
    check_prices(
        &rt,
        1_000,
        two('L', (0, 1_000), (500, 500)),
        2,
        &[(0, 900), (400, 500)],
    )
}
