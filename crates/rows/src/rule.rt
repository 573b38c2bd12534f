// The rules of rows, and the order in which a book's rows are held to them.

ghost use Rattle.std.specs.Prelude.{◌≡◌, ℕ, ◌<◌, ◌≤◌, Bool, true, false, ◌&&◌, length, Some, None, MatchResult, OnOk, nat_le, slice_index_or};
ghost use Rattle.rows.specs.Rules.{broken, cause_of, Lawful, fault_from, row_count_fault, rows_fault, limits_nest, levels_from, in_order};

use crate::cap::OfferCap;
use crate::class::Class;
use crate::row::{Point, Row};
use fault::{Cause, Fault, hold, hold_count};

// What a row by itself can break, in the order in which rows are looked at.
#[derive(Clone, Copy)]
pub enum Rule {
    Letter,
    Bus,
    Limits,
    Count,
    Levels,
    Prices,
    Reading,
}

// A rule looks at a row as it was submitted, so a load is one whose letter says so: `Class::try_from(row.letter)` would have
// to be told apart from its error at each of them.
impl Rule {
    pub fn cause(self) -> Cause
        ensures { result ≡ cause_of self }
    {
        match self {
            Rule::Letter => Cause::ClassLetter,
            Rule::Bus => Cause::BusNumber,
            Rule::Limits => Cause::UnitLimits,
            Rule::Count => Cause::PointCount,
            Rule::Levels => Cause::CurveLevels,
            Rule::Prices => Cause::CurvePrices,
            Rule::Reading => Cause::Reading,
        }
    }

    fn at(self, offer_cap: OfferCap) -> Capped
        ensures { result ≡ record { rule = self; offer_cap = offer_cap } }
    {
        Capped {
            rule: self,
            offer_cap,
        }
    }

    // Whether the row breaks this rule at the offer cap.
    pub fn broken_by(self, row: &Row, offer_cap: OfferCap) -> bool
        ensures { result ≡ broken offer_cap.cents self row.now }
    {
        match self {
            Rule::Letter => Class::try_from(row.letter).is_err(),
            Rule::Bus => row.bus > 63,
            Rule::Limits => !limits_nest(row),
            Rule::Count => row.points.count > 10 || (row.letter == 'L' && row.points.count == 0),
            Rule::Levels => !levels_rise(row.submitted()),
            Rule::Prices => !in_order(
                row.letter == 'L',
                -25_000,
                offer_cap.price(),
                row.submitted(),
            ),
            Rule::Reading => {
                (row.letter == 'N'
                    && row.points.count == 0
                    && !within(row.lsl, row.reading, row.hsl))
                    || (row.letter == 'L' && row.reading > 20_000)
            }
        }
    }
}

fn within(least: u16, amount: u16, most: u16) -> bool
    ensures { result ≡ (nat_le least amount && nat_le amount most) }
{
    least <= amount && amount <= most
}

fn limits_nest(row: &Row) -> bool
    ensures { result ≡ limits_nest row.now }
{
    row.lsl <= row.ldl && row.ldl <= row.hdl && row.hdl <= row.hsl && row.hsl <= 20_000
}

// Levels, prices of both directions, and the prices of blocks are held by a loop each: they differ in what is compared, and
// which way.
fn levels_rise(points: &[Point]) -> bool
    ensures { result ≡ levels_from 0 points.now }
{
    let mut least = 0;
    for point in points {
        if point.level < least || point.level > 20_000 {
            return false;
        }
        least = point.level;
    }
    true
}

fn in_order(load: bool, floor: i32, top: i32, points: &[Point]) -> bool
    ensures { result ≡ in_order load floor top points.now }
{
    let mut least = floor;
    let mut most = top;
    for point in points {
        if point.price < least || point.price > most {
            return false;
        }
        if load {
            most = point.price;
        } else {
            least = point.price;
        }
    }
    true
}

// A rule at an offer cap.
#[derive(Clone, Copy)]
struct Capped {
    rule: Rule,
    offer_cap: OfferCap,
}

impl fault::Rule for Capped {
    type Row = Row;

    ghost broken = { λ k. broken k.offer_cap.cents k.rule };

    ghost named = { λ k. cause_of k.rule };

    fn is_broken_by(&self, row: &Row) -> bool {
        self.rule.broken_by(row, self.offer_cap)
    }

    fn cause(&self) -> Cause {
        self.rule.cause()
    }
}

// The offer cap, where cap and rows keep every rule of a house book; else the first fault: by
// number, and within a number by row.
pub fn check_rows(cents: u32, rows: &[Row]) -> Result<OfferCap, Fault>
    ensures value { MatchResult result (λ c. (c.cents ≡ cents) × (rows_fault cents rows.now ≡ None)) (λ f. rows_fault cents rows.now ≡ Some f) }
    ensures few { OnOk result (length rows.now ≤ 64) }
    ensures lawful { OnOk result ((i : ℕ) (d : Row) → i < length rows.now → Lawful cents (slice_index_or rows.now i d)) }
{
    let offer_cap = OfferCap::new(cents)?;
    hold_count(rows, 64, Cause::RowCount)?;
    hold(&Rule::Letter.at(offer_cap), rows)?;
    hold(&Rule::Bus.at(offer_cap), rows)?;
    hold(&Rule::Limits.at(offer_cap), rows)?;
    hold(&Rule::Count.at(offer_cap), rows)?;
    hold(&Rule::Levels.at(offer_cap), rows)?;
    hold(&Rule::Prices.at(offer_cap), rows)?;
    hold(&Rule::Reading.at(offer_cap), rows)?;
    Ok(offer_cap)
}
