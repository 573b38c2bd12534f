// Proposals: `propose 1 3500 0 7 / 250 0` is step, system price, a shadow price for each line in
// order, `/`, and a base point for each participant in order. Prices in cents, base points in tenths.

ghost use Rattle.std.specs.Prelude.{◌≡◌, ◌⊎◌, ◌≢◌, IfErr};
ghost use Rattle.words.specs.declared.mistake.Mistake.TheVariants.{NotANumber, NoSlash, ManyBasePoints};

use calls::{Proposal, ShadowPrices};
use entries::read_base;
use given::Given;
use words::{Mistake, Words, read_field, read_price};

pub(crate) fn read_proposal(mut words: Words) -> Result<Proposal, Mistake>
    ensures { IfErr result (λ m. m ≢ ManyBasePoints) }
{
    let step = read_field(words.word()?)?;
    let system = read_price(words.word()?)?;
    let shadow = read_shadow(&mut words)?;
    let base = read_base(words)?;
    Ok(Proposal {
        step,
        system,
        shadow,
        base,
    })
}

// The prices before the word `/`, which is taken too.
fn read_shadow(words: &mut Words) -> Result<ShadowPrices, Mistake>
    ensures { IfErr result (λ m. (m ≡ NotANumber) ⊎ (m ≡ NoSlash)) }
{
    let mut shadow: ShadowPrices = Given::new(0);
    for word in words.by_ref() {
        if word == "/" {
            return Ok(shadow);
        }
        shadow.push(read_field(word)?);
    }
    Err(Mistake::NoSlash)
}
