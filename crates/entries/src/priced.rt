// A number with a price, as `100:2000`.

ghost use Rattle.std.specs.Prelude.{◌≡◌, ◌⊎◌, MatchResult};
ghost use Rattle.words.specs.declared.mistake.Mistake.TheVariants.{NotANumber};
ghost use Rattle.entries.specs.Priced.{IsPriced};

use words::{Mistake, read_field, read_price};

// The number and the price, or this mistake where no `:` parts them.
pub(crate) fn read_priced(word: &str, unparted: Mistake) -> Result<(u16, i32), Mistake>
    ensures { MatchResult result (λ r. IsPriced word.now r.0 r.1) (λ m. (m ≡ unparted) ⊎ (m ≡ NotANumber)) }
{
    let Some((number, price)) = word.split_once(':') else {
        return Err(unparted);
    };
    Ok((read_field(number)?, read_price(price)?))
}
