// The prices of a proposal within their ranges.

ghost use Rattle.std.specs.Prelude.{◌≡◌, length, Some, None, MatchResult};
ghost use Rattle.market.specs.Quoted.{prices_of};
ghost use Rattle.checks.specs.Causes.{dear, price_fault};
ghost use Rattle.feasible.specs.First.{first_place};
ghost use Rattle.checks.specs.Proposed.{quoted};

use calls::Proposal;
use fault::{Cause, Fault};
use market::Quote;

// The first shadow price over 1,000,000.
fn first_dear(prices: &[u32]) -> Option<usize>
    ensures { result ≡ first_place (dear prices.now) (length prices.now) }
{
    prices.iter().position(|price| *price > 1_000_000)
}

// The quote of a proposal, or the first price that is out of range: the system price comes first and has place 32.
pub(crate) fn quote_of(proposal: &Proposal) -> Result<Quote, Fault>
    ensures { MatchResult result (λ q. (price_fault proposal.now ≡ None) × (prices_of q ≡ quoted proposal.now)) (λ f. price_fault proposal.now ≡ Some f) }
{
    if proposal.system < -1_000_000 || proposal.system > 1_000_000 {
        return Err(Fault::new(Cause::PriceRange, 32));
    }
    if let Some(place) = first_dear(proposal.shadow.as_slice()) {
        return Err(Fault::new(Cause::PriceRange, place));
    }
    match Quote::new(proposal.system, proposal.shadow.as_slice()) {
        Some(quote) => Ok(quote),
        None => unreachable(),
    }
}
