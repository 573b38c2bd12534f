// A row of a house book: `row N 0 100 100 300 300 0 100:2000 300:4000` is class, bus, LSL, LDL,
// HDL, HSL, reading and points.

ghost use Rattle.std.specs.Prelude.{IfErr, MatchResult};
ghost use Rattle.words.specs.Next.{left};
ghost use Rattle.words.specs.Plain.{IsPlain};
ghost use Rattle.entries.specs.Priced.{IsPoint};
ghost use Rattle.entries.specs.Rows.{IsRow};

use crate::list::read_counted;
use crate::priced::read_priced;
use rows::{Point, Row};
use words::{Mistake, Words, read_field};

pub fn read_row(mut words: Words) -> Result<Row, Mistake>
    ensures { MatchResult result (IsRow (left words.entry)) IsPlain }
{
    let letter = read_letter(words.word()?)?;
    let bus = read_field(words.word()?)?;
    let lsl = read_field(words.word()?)?;
    let ldl = read_field(words.word()?)?;
    let hdl = read_field(words.word()?)?;
    let hsl = read_field(words.word()?)?;
    let reading = read_field(words.word()?)?;
    let points = read_counted(words, Point { level: 0, price: 0 }, read_point)?;
    Ok(Row {
        letter,
        bus,
        lsl,
        ldl,
        hdl,
        hsl,
        reading,
        points,
    })
}

// A word of one character.
fn read_letter(word: &str) -> Result<char, Mistake>
    ensures { IfErr result IsPlain }
{
    let mut letters = word.chars();
    match (letters.next(), letters.next()) {
        (Some(letter), None) => Ok(letter),
        _ => Err(Mistake::NotALetter),
    }
}

fn read_point(word: &str) -> Result<Point, Mistake>
    ensures { MatchResult result (IsPoint word.now) IsPlain }
{
    let (level, price) = read_priced(word, Mistake::NotAPoint)?;
    Ok(Point { level, price })
}
