// Straight lines between points.

ghost use Rattle.std.specs.Prelude.{◌≡◌, ◌<◌, ◌≤◌, pos, negsuc, ◌*ℤ◌, ◌≤ℤ◌};
ghost use Rattle.shelf.specs.Quotient.{floor_div};
ghost use Rattle.curve.specs.Line.{between, line_price};

use rows::Point;

// The part of a rise that belongs to `along` of `run`, rounded toward minus infinity.
fn part_of(rise: i64, along: u32, run: u32) -> i64
    requires fits { (negsuc 4294967295 ≤ℤ rise) × (rise ≤ℤ pos 4294967295) }
    requires within { (along ≤ run) × ((0 < run) × (run < 65536)) }
    ensures value { result ≡ floor_div (rise *ℤ pos along) run }
    ensures up { pos 0 ≤ℤ rise → (pos 0 ≤ℤ result) × (result ≤ℤ rise) }
    ensures down { rise ≤ℤ pos 0 → (result ≤ℤ pos 0) × (rise ≤ℤ result) }
{
    (rise * i64::from(along)).div_euclid(i64::from(run))
}

// The price at a level of the straight line between two points.
fn price_between(from: Point, to: Point, level: u32) -> i32
    requires after { from.level < level }
    requires upto { level ≤ to.level }
    ensures { result ≡ between from to level }
{
    let rise = i64::from(to.price) - i64::from(from.price);
    let part = part_of(
        rise,
        level - u32::from(from.level),
        u32::from(to.level) - u32::from(from.level),
    );
    (i64::from(from.price) + part) as i32
}

// The line price of the points at a level. No points have the price 0.
pub fn line_price(points: &[Point], level: u32) -> i32
    ensures { result ≡ line_price points.now level }
{
    let [first, rest @ ..] = points else {
        return 0;
    };
    if level <= u32::from(first.level) {
        return first.price;
    }
    for (before, point) in points.iter().zip(rest) {
        if level <= u32::from(point.level) {
            return price_between(*before, *point, level);
        }
    }
    rest.last().unwrap_or(first).price
}
