// The run: it takes calls in any order over any book and network, and holds only what it can certify.
#![tactic(auto)]

mod limiting;
mod making;
mod playing;
mod proposing;
mod reading;
mod referring;
mod requiring;
mod run;
mod terming;

pub use playing::play;
pub use run::Run;
