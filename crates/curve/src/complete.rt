// Rows become completed curves, each class by its own rule.

ghost use Rattle.std.specs.Prelude.{◌≡◌, ℕ, ◌≤◌, ◌++◌, length, pos, IfOk, Err, MatchResult};
ghost use Rattle.rows.specs.Rules.{points_of, Lawful};
ghost use Rattle.curve.specs.Listed.{listed, kept};
ghost use Rattle.curve.specs.Complete.{leading, trailing, scheduled, renewable, drawn, completed, last_of, row_price, price_on, Completes, Sound};
ghost use Rattle.rows.specs.Classes.{class_of};

use crate::curve::Curve;
use crate::line::line_price;
use crate::points::{Points, table_of};
use fault::Fault;
use rows::{Class, OfferCap, Point, Row};

// The lowest price, in cents, and the one above it.
const FLOOR: i32 = -25_000;

const NEAR_FLOOR: i32 = FLOOR + 1;

// The price of a renewable's last tenths, where it submitted no points.
const RENEWABLE_TOP: i32 = 150_000;

// The least price of a unit committed for reliability.
pub const COMMITTED_FLOOR: i32 = 25_000;

// What stands before submitted points that begin at `first`.
fn leading(lsl: u16, first: Point) -> Points
    ensures { listed result ≡ leading lsl first }
{
    let mut points = table_of(&[]);
    if lsl < first.level {
        points.push(Point {
            level: lsl,
            price: FLOOR,
        });
    }
    if u32::from(lsl) + 10 < u32::from(first.level) {
        points.push(Point {
            level: first.level.saturating_sub(10),
            price: NEAR_FLOOR.min(first.price),
        });
    }
    points
}

// What stands after submitted points that end at `last`.
fn trail(points: &mut Points, hsl: u16, last: Point)
    requires { length (listed points.old) ≤ 13 }
    ensures { listed points.new ≡ kept (listed points.old ++ trailing hsl last) }
{
    if last.level < hsl {
        points.push(Point {
            level: hsl,
            price: last.price,
        });
    }
}

// The proxy of a thermal unit that follows an Output Schedule.
fn scheduled(offer_cap: OfferCap, row: &Row) -> Points
    ensures { listed result ≡ scheduled offer_cap.cents row.now }
{
    let top = offer_cap.price();
    table_of(&[
        Point {
            level: row.lsl,
            price: FLOOR,
        },
        Point {
            level: row.reading,
            price: NEAR_FLOOR,
        },
        Point {
            level: row.hsl.min(row.reading.saturating_add(10)),
            price: top - 1,
        },
        Point {
            level: row.hsl,
            price: top,
        },
    ])
}

// The proxy of a renewable.
fn renewable(row: &Row) -> Points
    ensures { listed result ≡ renewable row.now }
{
    table_of(&[
        Point {
            level: row.lsl,
            price: FLOOR,
        },
        Point {
            level: row.lsl.max(row.hsl.saturating_sub(10)),
            price: NEAR_FLOOR,
        },
        Point {
            level: row.hsl,
            price: RENEWABLE_TOP,
        },
    ])
}

// The submitted points with their ends, or the proxy where none were submitted.
fn drawn(row: &Row, proxy: Points) -> Points
    ensures { listed result ≡ drawn row.now (listed proxy) (points_of row.now) }
{
    let submitted = row.submitted();
    let [first, ..] = submitted else {
        return proxy;
    };
    let mut points = leading(row.lsl, *first);
    points.append(submitted);
    trail(&mut points, row.hsl, submitted[submitted.len() - 1]);
    points
}

// The submitted points and nothing else.
fn submitted(row: &Row) -> Points
    ensures { listed result ≡ points_of row.now }
{
    table_of(row.submitted())
}

fn completed(class: Class, offer_cap: OfferCap, row: &Row) -> Points
    ensures { listed result ≡ completed class offer_cap.cents row.now }
{
    match class {
        Class::Thermal => drawn(row, scheduled(offer_cap, row)),
        Class::Renewable => drawn(row, renewable(row)),
        Class::Committed | Class::Load => submitted(row),
    }
}

impl Curve {
    // The curve of nobody: no points, and so the price 0 at every level.
    pub fn empty() -> Curve
        ensures { (q : ℕ) → price_on result q ≡ pos 0 }
    {
        Curve {
            class: Class::Thermal,
            hsl: 0,
            points: table_of(&[]),
        }
    }

    // The completed curve of a row, unless its letter names no class.
    pub fn complete(offer_cap: OfferCap, row: &Row) -> Result<Curve, Fault>
        ensures value { MatchResult result (λ c. Completes offer_cap.cents row.now c) (λ f. class_of row.now.letter ≡ Err f) }
        ensures prices { IfOk result (λ c. (q : ℕ) → price_on c q ≡ row_price offer_cap.cents row.now q) }
        ensures sound { Lawful offer_cap.cents row.now → Sound offer_cap.cents row.now }
    {
        let class = Class::try_from(row.letter)?;
        Ok(Curve {
            class,
            hsl: row.hsl,
            points: completed(class, offer_cap, row),
        })
    }

    // The price of the tenth that ends at `level`.
    pub fn price(&self, level: u16) -> i32
        ensures { result ≡ price_on self.now level }
    {
        let points = self.points();
        match self.class {
            Class::Thermal | Class::Renewable => line_price(points, u32::from(level)),
            Class::Committed => line_price(points, u32::from(level)).max(COMMITTED_FLOOR),
            Class::Load => {
                let shifted = u32::from(level) + u32::from(self.top_level());
                line_price(points, shifted.saturating_sub(u32::from(self.hsl)))
            }
        }
    }

    // The points of the completed curve.
    pub fn points(&self) -> &[Point]
        ensures value { result.now ≡ listed self.now.points }
        ensures few { length result.now ≤ 13 }
    {
        self.points.as_slice()
    }

    // The level of the last point; 0 where there is none.
    pub fn top_level(&self) -> u16
        ensures { result ≡ (last_of (listed self.now.points)).level }
    {
        self.points().last().map_or(0, |point| point.level)
    }
}
