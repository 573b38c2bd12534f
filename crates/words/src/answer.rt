// A word that answers a question.

ghost use Rattle.std.specs.Prelude.{◌≡◌, if◌then◌else◌, codes, MatchResult, OnErr, ◌≢◌};
ghost use Rattle.words.specs.declared.mistake.Mistake.TheVariants.{NotYesOrNo};

use crate::mistake::Mistake;

// Whether the word is `yes`, where it is that or `no`.
pub fn read_yes_or_no(word: &str) -> Result<bool, Mistake>
    ensures said { MatchResult result (λ b. word.now ≡ (if b then codes "yes" else codes "no")) (λ m. m ≡ NotYesOrNo) }
    ensures neither { OnErr result ((word.now ≢ codes "yes") × (word.now ≢ codes "no")) }
{
    match word {
        "yes" => Ok(true),
        "no" => Ok(false),
        _ => Err(Mistake::NotYesOrNo),
    }
}
