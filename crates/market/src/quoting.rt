// A quote is made from a system price and shadow prices, and read.

ghost use Rattle.std.specs.Prelude.{◌≡◌, ℕ, ◌≤◌, true, false, MatchOption, slice_index};
ghost use Rattle.market.specs.Quoted.{shadows_of, payable, quotable};

use crate::quote::Quote;
use given::Given;

// The greatest system price either way, in cents.
const MOST_SYSTEM: i32 = 1_000_000;

// The greatest shadow price.
const MOST_SHADOW: u32 = 1_000_000;

// Base points are held to their greatest by such a line too: a function for both would be as long as either.
#[tactic(auto, unfolding(crate::specs::Quoted::payable))]
fn all_payable(shadow: &[u32]) -> bool
    ensures { result ≡ payable shadow.now }
{
    shadow.iter().all(|price| *price <= MOST_SHADOW)
}

impl Quote {
    // The quote of a system price and the first lines' shadow prices, unless one is out of range or there are over 32.
    pub fn new(system: i32, shadow: &[u32]) -> Option<Quote>
        ensures { MatchOption result (quotable system shadow.now ≡ false) (λ q. (quotable system shadow.now ≡ true) × (q.system ≡ system) × ((k : ℕ) → slice_index (shadows_of q) k ≡ slice_index shadow.now k)) }
    {
        if system < -MOST_SYSTEM
            || system > MOST_SYSTEM
            || shadow.len() > 32
            || !all_payable(shadow)
        {
            return None;
        }
        let mut prices = Given::new(0);
        prices.append(shadow);
        Some(Quote {
            system,
            shadow: prices,
        })
    }

    // The shadow price of a line; 0 of a line that is not there.
    pub fn shadow(&self, line: usize) -> u32
        ensures value { result ≡ slice_index (shadows_of self.now) line }
        ensures most { result ≤ 1000000 }
    {
        self.shadow.get(line).copied().unwrap_or(0)
    }
}
