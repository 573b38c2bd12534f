// A run holds its book under the bounded layer, whose table has the terms in force.

use bounded::Bounded;
use checks::Held;
use feasible::Constraints;

// Book and network never change. The reference prices in the bounded layer are worked out anew for each second step and
// are no part of what is in force.
#[derive(Drop)]
pub struct Run<B, N> {
    pub(crate) book: Bounded<B>,
    pub(crate) network: N,
    pub(crate) constraints: Constraints,
    pub(crate) tolerance: u64,
    pub(crate) first: Option<Held>,
    pub(crate) second: Option<Held>,
}
