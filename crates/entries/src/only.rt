// A number that is the only word left, as in `cap 500000`.

ghost use Rattle.std.specs.Prelude.{MatchResult};
ghost use Rattle.words.specs.Next.{left};
ghost use Rattle.words.specs.Plain.{IsPlain};
ghost use Rattle.entries.specs.Numbers.{IsOnly};

use words::{Field, Mistake, Words, read_field};

pub fn read_only<F: Field>(mut words: Words) -> Result<F, Mistake>
    ensures { MatchResult result (λ held. IsOnly F.greatest (left words.entry) (F.value held)) IsPlain }
{
    let number = read_field(words.word()?)?;
    words.end()?;
    Ok(number)
}
