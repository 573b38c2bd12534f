// What the limits of priced lines leave unused.

ghost use Rattle.std.specs.Prelude.{◌≡◌, ◌≤◌, pos, negsuc, ◌-ℤ◌, ◌*ℤ◌, ◌≤ℤ◌};
ghost use Rattle.network.specs.Grid.{flow_of};
ghost use Rattle.network.specs.Sheet.{sheet_of};
ghost use Rattle.market.specs.Market.{room};
ghost use Rattle.market.specs.Quoted.{prices_of};
ghost use Rattle.feasible.specs.Stages.{held_to};
ghost use Rattle.gap.specs.Slack.{slack_at, slack_up};

use feasible::Step;
use market::Quote;
use network::{Injections, Network};

// A shadow price times what is left of a limit.
fn priced(shadow: u32, left: i64) -> i64
    requires shadow { shadow ≤ 1000000 }
    requires left { (negsuc 82919999999 ≤ℤ left) × (left ≤ℤ pos 82920000000) }
    ensures value { result ≡ pos shadow *ℤ left }
    ensures least { negsuc 82919999999999999 ≤ℤ result }
    ensures most { result ≤ℤ pos 82920000000000000 }
{
    shadow as i64 * left
}

// What the limit of a line leaves at these injections.
fn left<N: Network>(network: &N, sheet: &Injections, step: &Step, line: usize) -> i64
    ensures value { result ≡ room (held_to step.now) line -ℤ flow_of (N.Network.meaning network.now) line (sheet_of sheet.now) }
    ensures least { negsuc 82919999999 ≤ℤ result }
    ensures most { result ≤ℤ pos 82920000000 }
{
    step.room(line) - network.flow(line, sheet)
}

// What the limit of a line leaves, at these injections, by its shadow price; 0 where the step does not observe it.
fn slack<N: Network>(
    network: &N,
    sheet: &Injections,
    step: &Step,
    quote: &Quote,
    line: usize,
) -> i64
    ensures value { result ≡ slack_at (N.Network.meaning network.now) (held_to step.now) (prices_of quote.now) (sheet_of sheet.now) line }
    ensures least { negsuc 82919999999999999 ≤ℤ result }
    ensures most { result ≤ℤ pos 82920000000000000 }
{
    if step.observes(line) {
        priced(quote.shadow(line), left(network, sheet, step, line))
    } else {
        0
    }
}

// The same of all lines.
pub(crate) fn slacks<N: Network>(network: &N, sheet: &Injections, step: &Step, quote: &Quote) -> i64
    ensures value { result ≡ slack_up (N.Network.meaning network.now) (held_to step.now) (prices_of quote.now) (sheet_of sheet.now) (N.Network.meaning network.now).lines }
    ensures least { negsuc 2653439999999999999 ≤ℤ result }
    ensures most { result ≤ℤ pos 2653440000000000000 }
{
    let mut total = 0;
    for line in 0..network.lines() {
        total += slack(network, sheet, step, quote, line);
    }
    total
}
