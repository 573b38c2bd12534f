// A row of the house book, as submitted: nothing about it is checked yet.

ghost use Rattle.std.specs.Prelude.{◌≡◌, ◌≤◌, length};
ghost use Rattle.rows.specs.Rules.{points_of};

use given::Given;

// A price in cents at a level in tenths.
#[derive(Clone, Copy, Debug, Eq, PartialEq)]
pub struct Point {
    pub level: u16,
    pub price: i32,
}

// A participant's row. However many points were submitted, `points` counts them all and has the first ten.
#[derive(Clone, Copy)]
pub struct Row {
    // as it was submitted, and so no `Class` yet: another letter than four has to be declined by its rule
    pub letter: char,
    pub bus: u8,
    pub lsl: u16,
    pub ldl: u16,
    pub hdl: u16,
    pub hsl: u16,
    pub reading: u16,
    pub points: Given<Point, 10>,
}

impl Row {
    // The submitted points, at most ten of them.
    pub fn submitted(&self) -> &[Point]
        ensures value { result.now ≡ points_of self.now }
        ensures few { length result.now ≤ 10 }
    {
        self.points.as_slice()
    }
}
