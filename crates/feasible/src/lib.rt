// Whether a dispatch is feasible for a step, as the first place where it is not.
#![tactic(auto)]

mod balancing;
mod constraints;
mod limit;
mod outside;
mod overload;
mod reason;
mod setting;
mod stage;
mod step;
mod verdict;

pub use balancing::{balance, balanced};
pub use constraints::Constraints;
pub use outside::first_outside;
pub use overload::first_overloaded;
pub use reason::Infeasible;
pub use stage::Stage;
pub use step::Step;
pub use verdict::infeasible;
