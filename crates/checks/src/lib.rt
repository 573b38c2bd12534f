// The checks of a proposal for one step, over any book and network, in their order, and those of base points alone.
#![tactic(auto)]

mod forming;
mod held;
mod judging;
mod limiting;
mod listing;
mod observing;
mod placing;
mod quoting;

pub use held::Held;
pub use judging::{examine, judge};
pub use limiting::dispatch_at;
