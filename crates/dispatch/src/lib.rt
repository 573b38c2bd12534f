// A dispatch, one base point a participant, and what it injects into a network.
#![tactic(auto)]

mod dispatch;
mod injecting;
mod making;
mod sides;

pub use dispatch::Dispatch;
pub use injecting::{flow_of, injection, injections_of};
pub use sides::sided;
