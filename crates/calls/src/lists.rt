// The lists of a proposal.

use given::Given;

// In cents, one for each line in order.
pub type ShadowPrices = Given<u32, 32>;

// In tenths, one for each participant in order.
pub type BasePoints = Given<u16, 64>;
