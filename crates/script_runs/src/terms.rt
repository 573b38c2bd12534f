// What is in force for a run: `require 250 0` is requirement and tolerance, and `limit 0 200 no` is line, limit and
// whether the line is competitive. No number is held to its range here.

ghost use Rattle.std.specs.Prelude.{IfErr};
ghost use Rattle.words.specs.Plain.{IsPlain};

use calls::{LineLimit, Requirement};
use words::{Mistake, Words, read_field, read_number, read_yes_or_no};

pub(crate) fn read_requirement(mut words: Words) -> Result<Requirement, Mistake>
    ensures { IfErr result IsPlain }
{
    let amount = read_field(words.word()?)?;
    let tolerance = read_number(words.word()?)?;
    words.end()?;
    Ok(Requirement { amount, tolerance })
}

pub(crate) fn read_limit(mut words: Words) -> Result<LineLimit, Mistake>
    ensures { IfErr result IsPlain }
{
    let line = read_number(words.word()?)? as usize;
    let amount = read_field(words.word()?)?;
    let competitive = read_yes_or_no(words.word()?)?;
    words.end()?;
    Ok(LineLimit {
        line,
        amount,
        competitive,
    })
}
