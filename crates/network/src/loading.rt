// A table network is loaded from rows of 64 shares.

ghost use Rattle.std.specs.Prelude.{◌≡◌, ◌≤◌, true, false, length, map, Some, None, MatchOption, MatchResult};
ghost use Rattle.given.specs.Kept.{kept};
ghost use Rattle.network.specs.Table.{ranged, range_fault, network_fault, grid_of, meaning_of};

use crate::shares::Shares;
use crate::table::TableNetwork;
use fault::{Cause, Fault};
use given::Given;

fn in_range(shares: &[i16]) -> bool
    ensures { result ≡ ranged shares.now }
{
    shares.iter().all(|share| (-1_000..=1_000).contains(share))
}

impl Shares {
    // No share at any bus.
    fn none() -> Shares {
        Shares { at: [0; 64] }
    }

    // The shares of one line, unless one is out of range.
    fn new(at: [i16; 64]) -> Option<Shares>
        ensures { MatchOption result (ranged at ≡ false) (λ s. (ranged at ≡ true) × (s.at ≡ at)) }
    {
        if in_range(&at) {
            Some(Shares { at })
        } else {
            None
        }
    }
}

// Each line's shares, or the first line with a share out of range.
fn table_of(rows: &[[i16; 64]]) -> Result<Given<Shares, 32>, Fault>
    requires { length rows.now ≤ 32 }
    ensures { MatchResult result (λ t. (range_fault 0 rows.now ≡ None) × (t.count ≡ length rows.now) × (map (λ s. s.at) (kept t.count t.items) ≡ rows.now)) (λ f. range_fault 0 rows.now ≡ Some f) }
{
    let mut table = Given::new(Shares::none());
    for (place, row) in rows.iter().enumerate() {
        table.push(Shares::new(*row).ok_or(Fault::new(Cause::ShareRange, place))?);
    }
    Ok(table)
}

impl TableNetwork {
    // The network of the rows, or the first fault.
    pub fn load(rows: &[[i16; 64]]) -> Result<TableNetwork, Fault>
        ensures { MatchResult result (λ t. (network_fault rows.now ≡ None) × (meaning_of t ≡ grid_of rows.now)) (λ f. network_fault rows.now ≡ Some f) }
    {
        if rows.len() > 32 {
            return Err(Fault::new(Cause::LineCount, 0));
        }
        Ok(TableNetwork {
            rows: table_of(rows)?,
        })
    }
}
