// Base points: `base 250 0` has one number for each participant in order, in tenths.

ghost use Rattle.std.specs.Prelude.{◌≡◌, ◌⊎◌, MatchResult};
ghost use Rattle.words.specs.Next.{left};
ghost use Rattle.words.specs.Plain.{IsPlain};
ghost use Rattle.words.specs.declared.mistake.Mistake.TheVariants.{ManyBasePoints};
ghost use Rattle.entries.specs.Entries.{Counted, Within};
ghost use Rattle.entries.specs.Numbers.{Holds};

use crate::list::{read_counted, read_within};
use calls::BasePoints;
use words::{Mistake, Words, read_field};

// Every base point is counted, and the first 64 are kept.
pub fn read_base(words: Words) -> Result<BasePoints, Mistake>
    ensures { MatchResult result (Counted (Holds 65535) (left words.entry)) IsPlain }
{
    read_counted(words, 0, read_point)
}

// The 65th base point is a mistake.
pub fn read_few_base(words: Words) -> Result<BasePoints, Mistake>
    ensures { MatchResult result (Within (Holds 65535) (left words.entry)) (λ m. IsPlain m ⊎ (m ≡ ManyBasePoints)) }
{
    read_within(words, 0, read_point, Mistake::ManyBasePoints)
}

fn read_point(word: &str) -> Result<u16, Mistake>
    ensures { MatchResult result (Holds 65535 word.now) IsPlain }
{
    read_field(word)
}
