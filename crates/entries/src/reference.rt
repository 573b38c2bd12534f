// The reference prices of all participants in their order: `reference 2000 2100 -500`.

ghost use Rattle.std.specs.Prelude.{MatchResult};
ghost use Rattle.words.specs.Next.{left};
ghost use Rattle.words.specs.Plain.{IsPlain};
ghost use Rattle.entries.specs.Entries.{Within};
ghost use Rattle.entries.specs.Numbers.{IsPrice};

use crate::list::read_within;
use given::Given;
use words::{Mistake, Words, read_price};

// Prices in cents; past those that were given they are 0.
pub type References = Given<i32, 64>;

pub fn read_references(words: Words) -> Result<References, Mistake>
    ensures { MatchResult result (Within IsPrice (left words.entry)) IsPlain }
{
    read_within(words, 0, |word| read_price(word), Mistake::TooManyPrices)
}
