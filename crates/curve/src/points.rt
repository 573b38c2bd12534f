// A table of at most thirteen points: ten submitted ones, two before them and one after.

ghost use Rattle.std.specs.Prelude.{◌≡◌};
ghost use Rattle.curve.specs.Listed.{listed, kept};

use given::Given;
use rows::Point;

pub(crate) type Points = Given<Point, 13>;

// The table of some points.
pub(crate) fn table_of(points: &[Point]) -> Points
    ensures { listed result ≡ kept points.now }
{
    let mut table = Given::new(Point { level: 0, price: 0 });
    table.append(points);
    table
}
