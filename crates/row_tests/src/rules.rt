// Each rule of a row at its limits, accepted at the limit and declined one past it: what is varied,
// and last the number of the fault, 0 for none. The cap is 1,000 cents.

use crate::sample::*;
use rows::Row;
use std::process::Abort;

// The row alone, and second after a row without fault.
fn check_row(rt: &impl Abort, row: Row, number: u8) {
    let Row {
        letter,
        bus,
        lsl,
        ldl,
        hdl,
        hsl,
        reading,
        points,
    } = row;
    let count = points.count;
    let [first, last, ..] = points.items;
    let (from, begins, to, ends) = (first.level, first.price, last.level, last.price);
    assert!(rt;
        told(1_000, &[row]) == (number, 0),
        "{letter} {bus} {lsl} {ldl} {hdl} {hsl} {count} {reading} {from} {begins} {to} {ends}"
    );
    assert!(rt;
        told(1_000, &[plain('N'), row]) == (number, if number == 0 { 0 } else { 1 }),
        "second: {letter} {bus} {lsl} {ldl} {hdl} {hsl} {count} {reading} {from} {begins} {to} {ends}"
    );
}

#[test]
fn letters_and_buses(rt: HostRuntime) {
    for (letter, bus, number) in [
        ('N', 0, 0),
        ('I', 0, 0),
        ('R', 0, 0),
        ('L', 0, 0),
        ('n', 0, 3),
        ('M', 0, 3),
        ('N', 63, 0),
        ('N', 64, 4),
    ] {
        check_row(
            &rt,
            Row {
                bus,
                ..plain(letter)
            },
            number,
        );
    }
}

#[test]
fn limits(rt: HostRuntime) {
    for (lsl, ldl, hdl, hsl, number) in [
        (150, 150, 150, 150, 0),
        (151, 150, 150, 150, 5),
        (150, 151, 150, 151, 5),
        (150, 150, 151, 150, 5),
        (0, 0, 0, 0, 0),
        (20_000, 20_000, 20_000, 20_000, 0),
        (20_000, 20_000, 20_000, 20_001, 5),
    ] {
        check_row(
            &rt,
            Row {
                lsl,
                ldl,
                hdl,
                hsl,
                ..plain('N')
            },
            number,
        );
    }
}

#[test]
fn counts_and_readings(rt: HostRuntime) {
    for (letter, count, reading, number) in [
        ('N', 10, 200, 0),
        ('N', 11, 200, 6),
        ('L', 1, 200, 0),
        ('L', 0, 200, 6),
        ('N', 0, 99, 9),
        ('N', 0, 100, 0),
        ('N', 0, 400, 0),
        ('N', 0, 401, 9),
        ('L', 2, 20_000, 0),
        ('L', 2, 20_001, 9),
        ('N', 1, 65_535, 0),
        ('I', 0, 65_535, 0),
        ('R', 0, 65_535, 0),
    ] {
        check_row(
            &rt,
            counted(
                count,
                Row {
                    reading,
                    ..plain(letter)
                },
            ),
            number,
        );
    }
}

#[test]
fn levels_and_prices(rt: HostRuntime) {
    for (letter, first, last, number) in [
        ('N', (120, 50), (119, 50), 7),
        ('N', (120, 50), (120, 50), 0),
        ('N', (0, 50), (20_000, 50), 0),
        ('N', (0, 50), (20_001, 50), 7),
        ('L', (1, 50), (0, 50), 7),
        ('N', (120, -25_000), (350, 1_000), 0),
        ('N', (120, -25_001), (350, 1_000), 8),
        ('N', (120, -25_000), (350, 1_001), 8),
        ('N', (120, 50), (350, 49), 8),
        ('I', (120, 50), (350, 49), 8),
        ('R', (120, 50), (350, 49), 8),
        ('L', (120, 1_000), (350, -25_000), 0),
        ('L', (120, 1_001), (350, -25_000), 8),
        ('L', (120, 1_000), (350, -25_001), 8),
        ('L', (120, 50), (350, 51), 8),
    ] {
        check_row(&rt, two(letter, first, last), number);
    }
}
