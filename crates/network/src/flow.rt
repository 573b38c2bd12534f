// The flow of one line: its shares times the injections, summed over the buses.

ghost use Rattle.std.specs.Prelude.{◌≡◌, pos, negsuc, ◌*ℤ◌, ◌≤ℤ◌};
ghost use Rattle.network.specs.Sheet.{sheet_of};
ghost use Rattle.network.specs.Table.{share_of, line_flow};

use crate::injections::Injections;
use crate::shares::Shares;

// What one bus adds to a flow: at most 2^46, by the widths of the two numbers.
fn part(share: i16, injection: i32) -> i64
    ensures value { result ≡ share *ℤ injection }
    ensures least { negsuc 70368744177663 ≤ℤ result }
    ensures most { result ≤ℤ pos 70368744177664 }
{
    i64::from(share) * i64::from(injection)
}

impl Shares {
    // The share at a bus; 0 at a bus that is not there.
    pub(crate) fn share(&self, bus: usize) -> i16
        ensures { result ≡ share_of self.now bus }
    {
        self.at.get(bus).copied().unwrap_or(0)
    }

    pub(crate) fn flow(&self, injections: &Injections) -> i64
        ensures { result ≡ line_flow self.now (sheet_of injections.now) 64 }
    {
        // A loop, since the library proves no bound of an iterator's sum of signed numbers.
        let mut total = 0;
        for (share, injection) in self.at.iter().zip(injections.at.iter()) {
            total += part(*share, *injection);
        }
        total
    }
}
