// The rows of the widest book: 64 thermal units from 0 to 20,000 tenths, each with ten points.

ghost use Rattle.std.specs.Prelude.{◌≡◌, ◌<◌};
ghost use Rattle.measure.specs.Widest.{point_of, points_of, row_of, rows_of};

use given::Given;
use rows::{Point, Row};
use std::array;

// The point at a place of a participant. That there are 64 is asked of a number here and below: a type for it would have
// to be made from a number just so.
fn point(prices: &[i32], participant: usize, place: usize) -> Point
    requires there { participant < 64 }
    requires few { place < 10 }
    ensures { result ≡ point_of prices.now participant place }
{
    Point {
        level: 1_900 * (place as u16 + 1),
        price: prices.get(10 * participant + place).copied().unwrap_or(0),
    }
}

fn points(prices: &[i32], participant: usize) -> [Point; 10]
    requires { participant < 64 }
    ensures { result ≡ points_of prices.now participant }
{
    array::from_fn(|place| point(prices, participant, place))
}

fn row(prices: &[i32], participant: usize) -> Row
    requires { participant < 64 }
    ensures { result ≡ row_of prices.now participant }
{
    let items = points(prices, participant);
    Row {
        letter: 'N',
        bus: participant as u8,
        lsl: 0,
        ldl: 0,
        hdl: 20_000,
        hsl: 20_000,
        reading: 0,
        points: Given { count: 10, items },
    }
}

// The rows at these prices, ten for each participant.
pub(crate) fn rows_of(prices: &[i32]) -> [Row; 64]
    ensures { result ≡ rows_of prices.now }
{
    array::from_fn(|participant| row(prices, participant))
}
