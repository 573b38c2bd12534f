// The price of a participant: what the system price and the lines' shadow prices make at its bus.

ghost use Rattle.std.specs.Prelude.{◌≡◌, ◌≤◌, pos, negsuc, ◌*ℤ◌, ◌≤ℤ◌};
ghost use Rattle.network.specs.Grid.{least_share, most_share};
ghost use Rattle.market.specs.Market.{lmp};
ghost use Rattle.market.specs.Priced.{shadow_sum};
ghost use Rattle.market.specs.Quoted.{prices_of};

use crate::quote::Quote;
use book::OfferBook;
use network::Network;

// What one line takes from a price.
fn part(share: i16, shadow: u32) -> i64
    requires share { (least_share ≤ℤ share) × (share ≤ℤ most_share) }
    requires shadow { shadow ≤ 1000000 }
    ensures value { result ≡ share *ℤ pos shadow }
    ensures least { negsuc 999999999 ≤ℤ result }
    ensures most { result ≤ℤ pos 1000000000 }
{
    share as i64 * shadow as i64
}

// The sum over lines of share at a bus times shadow price.
fn shadow_sum<N: Network>(network: &N, quote: &Quote, bus: usize) -> i64
    ensures value { result ≡ shadow_sum (N.Network.meaning network.now) (prices_of quote.now) bus (N.Network.meaning network.now).lines }
    ensures least { negsuc 31999999999 ≤ℤ result }
    ensures most { result ≤ℤ pos 32000000000 }
{
    let mut total = 0;
    for line in 0..network.lines() {
        total += part(network.share(line, bus), quote.shadow(line));
    }
    total
}

// The price of a participant, in thousandths of a cent.
pub fn lmp<B: OfferBook, N: Network>(
    book: &B,
    network: &N,
    quote: &Quote,
    participant: usize,
) -> i64
    ensures value { result ≡ lmp (B.OfferBook.meaning book.now) (N.Network.meaning network.now) (prices_of quote.now) participant }
    ensures least { negsuc 32999999999 ≤ℤ result }
    ensures most { result ≤ℤ pos 33000000000 }
{
    1_000 * quote.system as i64 - shadow_sum(network, quote, book.bus(participant) as usize)
}
