// What is kept of a proposal.

use dispatch::Dispatch;
use market::Quote;

// The prices, the base points, and the gap in millionths of a dollar per hour.
#[derive(Clone, Copy)]
pub struct Held {
    pub quote: Quote,
    pub dispatch: Dispatch,
    pub gap: i64,
}
