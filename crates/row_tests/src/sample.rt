// Rows to vary, and what a book of rows is told.

use given::Given;
use rows::{Point, Row, check_rows};

// A row with two points, each a level and a price.
pub(crate) fn two(letter: char, first: (u16, i32), last: (u16, i32)) -> Row {
    let mut points = Given::new(point(last));
    points.push(point(first));
    points.push(point(last));
    Row {
        letter,
        bus: 1,
        lsl: 100,
        ldl: 150,
        hdl: 300,
        hsl: 400,
        reading: 200,
        points,
    }
}

fn point((level, price): (u16, i32)) -> Point {
    Point { level, price }
}

// A row with two points at one price: with a class letter it keeps every rule.
pub(crate) fn plain(letter: char) -> Row {
    two(letter, (120, 50), (350, 50))
}

// A row without points.
pub(crate) fn bare(letter: char) -> Row {
    counted(0, plain(letter))
}

// The row with another count of points, whichever points those are.
pub(crate) fn counted(count: usize, row: Row) -> Row {
    let mut points = row.points;
    points.count = count;
    Row { points, ..row }
}

// Number and place of the fault at the cap, or two zeros.
pub(crate) fn told(cents: u32, rows: &[Row]) -> (u8, usize) {
    match check_rows(cents, rows) {
        Ok(_) => (0, 0),
        Err(fault) => (fault.cause.number(), fault.place),
    }
}
