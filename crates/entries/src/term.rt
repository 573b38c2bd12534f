// The mitigation term of a participant: `term 3 -25000 0 0 yes` is participant, floor, cap, adder
// and whether it is subject to mitigation. No number is held to its range here.

ghost use Rattle.std.specs.Prelude.{MatchResult};
ghost use Rattle.words.specs.Next.{left};
ghost use Rattle.words.specs.Plain.{IsPlain};
ghost use Rattle.entries.specs.Terms.{IsTerm};

use calls::ParticipantTerm;
use words::{Mistake, Words, read_field, read_number, read_price, read_yes_or_no};

pub fn read_term(mut words: Words) -> Result<ParticipantTerm, Mistake>
    ensures { MatchResult result (IsTerm (left words.entry)) IsPlain }
{
    let participant = read_number(words.word()?)? as usize;
    let floor = read_price(words.word()?)?;
    let ceiling = read_price(words.word()?)?;
    let adder = read_field(words.word()?)?;
    let subject = read_yes_or_no(words.word()?)?;
    words.end()?;
    Ok(ParticipantTerm {
        participant,
        floor,
        ceiling,
        adder,
        subject,
    })
}
