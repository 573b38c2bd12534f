// The system-wide offer cap.

ghost use Rattle.std.specs.Prelude.{◌≡◌, ◌<◌, ◌≤◌, ◌⊎◌, pos, MatchResult};
ghost use Rattle.fault.specs.declared.cause.Cause.TheVariants.{OfferCap as CapRange};

use fault::{Cause, Fault};

// A number of cents from 1 to 1,000,000.
#[derive(Clone, Copy)]
pub struct OfferCap {
    cents: u32,
    ghost least: { 1 ≤ cents },
    ghost most: { cents ≤ 1000000 },
}

impl OfferCap {
    // The cap of so many cents, unless it is out of range.
    pub fn new(cents: u32) -> Result<Self, Fault>
        ensures { MatchResult result (λ made. made.cents ≡ cents) (λ f. (f ≡ record { cause = CapRange; place = 0 }) × ((cents < 1) ⊎ (1000000 < cents))) }
    {
        if cents < 1 || cents > 1_000_000 {
            return Err(Fault::new(Cause::OfferCap, 0));
        }
        Ok(OfferCap { cents })
    }

    // The cap as a price.
    pub fn price(self) -> i32
        ensures { result ≡ pos self.cents }
    {
        self.cents as i32
    }
}
