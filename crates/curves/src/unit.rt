// A row with its completed curve, and the levels at which that curve bends.

ghost use Rattle.std.specs.Prelude.{◌≡◌, ◌+◌, ◌<◌, T, pos, ◌≤ℤ◌, IfOk};
ghost use Rattle.curve.specs.Complete.{Completes, price_on};
ghost use Rattle.curve.specs.Listed.{listed};
ghost use Rattle.curves.specs.Bends.{from_of, to_of, point_at, jump_at, jump_over};

use crate::corners::Corners;
use curve::{COMMITTED_FLOOR, Curve};
use fault::Fault;
use rows::{Class, OfferCap, Point, Row};

// A level q lies on a point of level m where q + `from` = m + `to`: a load's bid is shifted so
// that it ends at HSL, and a generator's curve is not shifted.
#[derive(Clone, Copy)]
pub(crate) struct Unit {
    row: Row,
    curve: Curve,
    class: Class,
    from: u16,
    to: u16,
}

impl Unit {
    pub(crate) fn new(offer_cap: OfferCap, row: &Row) -> Result<Unit, Fault>
        ensures curve { IfOk result (λ u. (u.row ≡ row.now) × Completes offer_cap.cents row.now u.curve) }
        ensures shift { IfOk result (λ u. (u.from ≡ from_of u.class (listed u.curve.points)) × (u.to ≡ to_of u.class row.now.hsl)) }
    {
        let class = Class::try_from(row.letter)?;
        let curve = Curve::complete(offer_cap, row)?;
        let from = shifted_from(class, &curve);
        let to = shifted_to(class, row.hsl);
        Ok(Unit {
            row: *row,
            curve,
            class,
            from,
            to,
        })
    }

    // Whether the level after `below` is a corner: the first or the last one, one on a point, or
    // one past a jump or past the committed floor.
    fn bends_after(&self, below: u16) -> bool
        requires { below < 65535 }
        ensures first { below ≡ self.now.row.ldl → T result }
        ensures last { below + 1 ≡ self.now.row.hdl → T result }
        ensures point { T (point_at (below + 1 + self.now.from) self.now.to (listed self.now.curve.points)) → T result }
        ensures jump { T (jump_at (below + self.now.from) self.now.to (listed self.now.curve.points)) → T result }
    {
        let level = below + 1;
        below == self.row.ldl
            || level == self.row.hdl
            || self.on_point(level)
            || self.jumps_after(below)
            || self.leaves_floor_after(level)
            || self.leaves_floor_after(below)
    }

    fn on_point(&self, level: u16) -> bool
        ensures { result ≡ point_at (level + self.now.from) self.now.to (listed self.now.curve.points) }
    {
        point_at(
            u32::from(level) + u32::from(self.from),
            self.to,
            self.curve.points(),
        )
    }

    // Whether two points of different prices lie at the level.
    fn jumps_after(&self, level: u16) -> bool
        ensures { result ≡ jump_at (level + self.now.from) self.now.to (listed self.now.curve.points) }
    {
        jump_at(
            u32::from(level) + u32::from(self.from),
            self.to,
            self.curve.points(),
        )
    }

    // Whether a committed unit's price is the floor at the level, and above it at the next.
    fn leaves_floor_after(&self, level: u16) -> bool
        ensures at { T result → price_on self.now.curve level ≡ pos 25000 }
        ensures next { T result → pos 25001 ≤ℤ price_on self.now.curve (level + 1) }
    {
        self.class == Class::Committed
            && level < self.row.hdl
            && self.curve.price(level) == COMMITTED_FLOOR
            && self.curve.price(level + 1) > COMMITTED_FLOOR
    }
}

impl Corners for Unit {
    fn corner_after(&self, below: u16) -> bool {
        self.bends_after(below)
    }
}

// Whether a point stands at the place `at`, where each stands `to` above its level.
fn point_at(at: u32, to: u16, points: &[Point]) -> bool
    ensures { result ≡ point_at at to points.now }
{
    points
        .iter()
        .any(|point| at == u32::from(point.level) + u32::from(to))
}

// Whether two points of different prices stand at the place.
fn jump_at(at: u32, to: u16, points: &[Point]) -> bool
    ensures { result ≡ jump_at at to points.now }
{
    let [first, rest @ ..] = points else {
        return false;
    };
    let mut before = *first;
    for point in rest {
        if jump_over(at, to, before, *point) {
            return true;
        }
        before = *point;
    }
    false
}

fn jump_over(at: u32, to: u16, before: Point, after: Point) -> bool
    ensures { result ≡ jump_over at to before after }
{
    at == u32::from(before.level) + u32::from(to)
        && before.level == after.level
        && before.price != after.price
}

// The last level of a load's bid.
fn shifted_from(class: Class, curve: &Curve) -> u16
    ensures { result ≡ from_of class (listed curve.now.points) }
{
    match class {
        Class::Load => curve.top_level(),
        _ => 0,
    }
}

// The level at which a load's bid ends.
fn shifted_to(class: Class, hsl: u16) -> u16
    ensures { result ≡ to_of class hsl }
{
    match class {
        Class::Load => hsl,
        _ => 0,
    }
}
