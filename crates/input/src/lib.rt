// What a script says: a book and the lines of a network, and then the calls of a run with what is asked between them.
#![tactic(auto)]

mod asked;
mod input;

pub use asked::Asked;
pub use input::Input;
