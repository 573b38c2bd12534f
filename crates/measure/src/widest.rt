// What a program outside calls: the gap and the worth of base points in the widest market.

ghost use Rattle.std.specs.Prelude.{◌≡◌, true, false, None, MatchOption, ◌≢◌};
ghost use Rattle.rows.specs.Rules.{rows_fault};
ghost use Rattle.house.specs.House.{meaning_of as book_of};
ghost use Rattle.network.specs.Table.{network_fault, meaning_of as network_of};
ghost use Rattle.measure.specs.Answers.{wide_book, wide_grid, Judged, Unjudged, Valued, Unvalued};
ghost use Rattle.measure.specs.Widest.{rows_of, lines_of};

use crate::lines::lines_of;
use crate::offers::rows_of;
use dispatch::Dispatch;
use feasible::{Constraints, Stage, Step};
use gap::gap;
use house::HouseBook;
use market::{Quote, worth};
use network::TableNetwork;

// The offer cap, in cents.
const CAP: u32 = 1_000_000;

fn book_of(prices: &[i32]) -> Option<HouseBook>
    ensures { MatchOption result (rows_fault 1000000 (rows_of prices.now) ≢ None) (λ b. book_of b ≡ wide_book prices.now) }
{
    HouseBook::load(CAP, &rows_of(prices)).ok()
}

fn network_of(shares: &[i16]) -> Option<TableNetwork>
    ensures { MatchOption result (network_fault (lines_of shares.now) ≢ None) (λ n. network_of n ≡ wide_grid shares.now) }
{
    TableNetwork::load(&lines_of(shares)).ok()
}

// The gap where every line is observed, with the limit 1,000,000.
fn judge(prices: &[i32], shares: &[i16], system: i32, shadow: &[u32], base: &[u16]) -> Option<i64>
    ensures { MatchOption result (Unjudged prices.now shares.now system shadow.now base.now) (Judged prices.now shares.now system shadow.now base.now) }
{
    let book = book_of(prices)?;
    let network = network_of(shares)?;
    let quote = Quote::new(system, shadow)?;
    let dispatch = Dispatch::new(base)?;
    let step = Step {
        constraints: Constraints::new(),
        stage: Stage::Second,
    };
    gap(&book, &network, &step, &quote, &dispatch)
}

fn value(prices: &[i32], base: &[u16]) -> Option<i64>
    ensures { MatchOption result (Unvalued prices.now base.now) (Valued prices.now base.now) }
{
    let book = book_of(prices)?;
    let dispatch = Dispatch::new(base)?;
    Some(worth(&book, &dispatch))
}

// A `bool` and a place for the answer, since the C interface needs them: C has no `Option`.

// Writes the gap of base points in the widest market at these prices and shares; no, and nothing is written, where
// some number is out of range.
#[unsafe(no_mangle)]
pub extern "C" fn widest_gap(
    prices: &[i32],
    shares: &[i16],
    system: i32,
    shadow: &[u32],
    base: &[u16],
    answer: &mut i64,
) -> bool
    ensures yes { result ≡ true → Judged prices.now shares.now system shadow.now base.now answer.new }
    ensures no { result ≡ false → Unjudged prices.now shares.now system shadow.now base.now }
    ensures same { result ≡ false → answer.new ≡ answer.old }
{
    match judge(prices, shares, system, shadow, base) {
        Some(gap) => {
            *answer = gap;
            true
        }
        None => false,
    }
}

// Writes the worth of base points in the widest market at these prices, in the same way.
#[unsafe(no_mangle)]
pub extern "C" fn widest_worth(prices: &[i32], base: &[u16], answer: &mut i64) -> bool
    ensures yes { result ≡ true → Valued prices.now base.now answer.new }
    ensures no { result ≡ false → Unvalued prices.now base.now }
    ensures same { result ≡ false → answer.new ≡ answer.old }
{
    match value(prices, base) {
        Some(worth) => {
            *answer = worth;
            true
        }
        None => false,
    }
}
