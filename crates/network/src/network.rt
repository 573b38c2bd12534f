// What a network is: lines, the share of each line in an injection at each bus, and flows.

ghost use Rattle.std.specs.Prelude.{◌≡◌, ℕ, ◌≤◌, ◌≤ℤ◌};
ghost use Rattle.network.specs.Grid.{Grid, Lawful, flow_of, least_share, most_share};
ghost use Rattle.network.specs.Sheet.{sheet_of};

use crate::injections::Injections;

// A network answers questions about its lines, numbered from 0. A line or bus that is not there has
// the share and the flow 0.
pub trait Network {
    ghost meaning: { Self → Grid };

    // the number of lines, at most 32
    fn lines(&self) -> usize
        ensures { result ≡ (meaning self.now).lines };

    // in thousandths, −1,000 to 1,000
    fn share(&self, line: usize, bus: usize) -> i16
        ensures { result ≡ (meaning self.now).share line bus };

    // in thousandths of a tenth: the sum over buses of share times injection
    fn flow(&self, line: usize, injections: &Injections) -> i64
        ensures { result ≡ flow_of (meaning self.now) line (sheet_of injections.now) };

    // what every network owes
    ghost lawful: { (n : Self) → Lawful (meaning n) };

    // parts of it that arithmetic wants at hand
    ghost few: { (n : Self) → (meaning n).lines ≤ 32 };

    ghost least: { (n : Self) (k b : ℕ) → least_share ≤ℤ (meaning n).share k b };

    ghost most: { (n : Self) (k b : ℕ) → (meaning n).share k b ≤ℤ most_share };
}
