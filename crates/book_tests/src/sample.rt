// Rows with two points, and books of them.

use fault::Fault;
use given::Given;
use house::HouseBook;
use rows::{Point, Row};
use std::test::Fail;

// A row with the limits LSL, LDL, HDL and HSL, and these prices at LSL and HSL.
pub(crate) fn row(letter: char, bus: u8, limits: [u16; 4], reading: u16, prices: [i32; 2]) -> Row {
    let mut points = Given::new(Point { level: 0, price: 0 });
    points.push(Point {
        level: limits[0],
        price: prices[0],
    });
    points.push(Point {
        level: limits[3],
        price: prices[1],
    });
    Row {
        letter,
        bus,
        lsl: limits[0],
        ldl: limits[1],
        hdl: limits[2],
        hsl: limits[3],
        reading,
        points,
    }
}

pub(crate) fn book_of(rows: &[Row]) -> Result<HouseBook, Fail> {
    match HouseBook::load(500_000, rows) {
        Ok(book) => Ok(book),
        Err(_) => Err(Fail::new("the rows break a rule")),
    }
}

// Number and place of the fault by which something is not loaded, or two zeros.
pub(crate) fn told<T: Drop>(loaded: Result<T, Fault>) -> (u8, usize) {
    match loaded {
        Ok(_) => (0, 0),
        Err(fault) => (fault.cause.number(), fault.place),
    }
}
