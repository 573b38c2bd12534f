// What a dispatch is worth, what it forgoes, and the laws that make its gap a certificate.
#![tactic(auto)]

mod nodal;
mod quote;
mod quoting;
mod valuing;
mod walking;

pub use nodal::lmp;
pub use quote::Quote;
pub use valuing::worth;
pub use walking::{forgone, tenth_gain};
