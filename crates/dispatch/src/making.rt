// A dispatch is made from a list of base points, and read.

ghost use Rattle.std.specs.Prelude.{◌≡◌, ℕ, ◌≤◌, true, false, MatchOption, slice_index};
ghost use Rattle.dispatch.specs.Base.{base_of, reachable, holds};

use crate::dispatch::Dispatch;
use given::Given;

// The greatest base point, in tenths.
const MOST: u16 = 20_000;

// Shadow prices are held to their greatest by such a line too: a function for both would be as long as either.
#[tactic(auto, unfolding(crate::specs::Base::reachable))]
fn all_reachable(points: &[u16]) -> bool
    ensures { result ≡ reachable points.now }
{
    points.iter().all(|point| *point <= MOST)
}

impl Dispatch {
    // The dispatch of these base points, unless there are over 64 or one is over 20,000.
    pub fn new(points: &[u16]) -> Option<Dispatch>
        ensures { MatchOption result (holds points.now ≡ false) (λ d. (holds points.now ≡ true) × ((i : ℕ) → base_of d i ≡ slice_index points.now i)) }
    {
        if points.len() > 64 || !all_reachable(points) {
            return None;
        }
        let mut base = Given::new(0);
        base.append(points);
        Some(Dispatch { base })
    }

    // The base point of a participant; 0 where there is none.
    pub fn base(&self, participant: usize) -> u16
        ensures value { result ≡ base_of self.now participant }
        ensures most { result ≤ 20000 }
    {
        self.base.get(participant).copied().unwrap_or(0)
    }
}
