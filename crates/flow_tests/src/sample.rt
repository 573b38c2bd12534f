// Small books, networks and dispatches.

use dispatch::Dispatch;
use given::Given;
use house::HouseBook;
use network::TableNetwork;
use rows::{Point, Row};

// A participant that may be dispatched from 0 to 20,000.
pub(crate) fn unit(letter: char, bus: u8) -> Row {
    let mut points = Given::new(Point { level: 0, price: 0 });
    points.push(Point { level: 0, price: 0 });
    Row {
        letter,
        bus,
        lsl: 0,
        ldl: 0,
        hdl: 20_000,
        hsl: 20_000,
        reading: 0,
        points,
    }
}

// The shares of a line with a share at one bus.
pub(crate) fn shares(bus: usize, share: i16) -> [i16; 64] {
    let mut shares = [0; 64];
    if bus < 64 {
        shares[bus] = share;
    }
    shares
}

// What a test cannot go on without.
#[derive(Debug, Drop)]
pub(crate) enum Missing {
    Book,
    Network,
    Dispatch,
}

pub(crate) fn book_of(rows: &[Row]) -> Result<HouseBook, Missing> {
    match HouseBook::load(500_000, rows) {
        Ok(book) => Ok(book),
        Err(_) => Err(Missing::Book),
    }
}

pub(crate) fn network_of(rows: &[[i16; 64]]) -> Result<TableNetwork, Missing> {
    match TableNetwork::load(rows) {
        Ok(network) => Ok(network),
        Err(_) => Err(Missing::Network),
    }
}

pub(crate) fn dispatch_of(points: &[u16]) -> Result<Dispatch, Missing> {
    match Dispatch::new(points) {
        Some(dispatch) => Ok(dispatch),
        None => Err(Missing::Dispatch),
    }
}
