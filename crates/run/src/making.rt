// A new run.

ghost use Rattle.std.specs.Prelude.{◌≡◌};
ghost use Rattle.law.specs.State.{new_run};
ghost use Rattle.run.specs.View.{state_of};

use crate::run::Run;
use bounded::Bounded;
use feasible::Constraints;

impl<B, N> Run<B, N> {
    // Requirement and tolerance 0, every limit 1,000,000 and competitive, every term fresh, and nothing held.
    pub fn new(book: B, network: N) -> Run<B, N>
        ensures state { state_of result ≡ new_run }
        ensures book { result.book.book ≡ book }
        ensures network { result.network ≡ network }
    {
        Run {
            book: Bounded::new(book),
            network,
            constraints: Constraints::new(),
            tolerance: 0,
            first: None,
            second: None,
        }
    }
}
