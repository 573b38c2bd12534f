// No shadow price on a line that the step does not observe.

ghost use Rattle.std.specs.Prelude.{◌≡◌};
ghost use Rattle.market.specs.Quoted.{prices_of};
ghost use Rattle.feasible.specs.Stages.{held_to};
ghost use Rattle.checks.specs.Causes.{unobserved};
ghost use Rattle.feasible.specs.First.{first_place};

use feasible::Step;
use market::Quote;
use network::Network;

fn is_unobserved(step: &Step, quote: &Quote, line: usize) -> bool
    ensures { result ≡ unobserved (held_to step.now) (prices_of quote.now) line }
{
    quote.shadow(line) > 0 && !step.observes(line)
}

// The first line that is priced though the step does not observe it.
pub(crate) fn first_unobserved<N: Network>(network: &N, step: &Step, quote: &Quote) -> Option<usize>
    ensures { result ≡ first_place (unobserved (held_to step.now) (prices_of quote.now)) (N.Network.meaning network.now).lines }
{
    (0..network.lines()).find(|line| is_unobserved(step, quote, *line))
}
