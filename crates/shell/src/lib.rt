// What every program has around its script: how it reads standard input line by line, why it ends early, and what it
// prints of that.
#![tactic(auto)]

mod flaw;
mod printing;
mod reading;
mod stop;

pub use flaw::Flaw;
pub use printing::{print_end, print_flows, print_refusal};
pub use reading::read_lines;
pub use stop::Stop;
