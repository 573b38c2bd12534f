// Networks: injections at buses, and the flows on lines that they make.
#![tactic(auto)]

mod answers;
mod flow;
mod injections;
mod loading;
mod network;
mod shares;
mod sheet;
mod table;

pub use injections::{Injections, NotHeld};
pub use network::Network;
pub use table::TableNetwork;
