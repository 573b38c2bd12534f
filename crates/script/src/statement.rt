// What a line says, by its first word.

ghost use Rattle.std.specs.Prelude.{◌≢◌, IfErr, IfOk};
ghost use Rattle.script.specs.Fitting.{Fits};
ghost use Rattle.words.specs.declared.mistake.Mistake.TheVariants.{NoSlash};

use block::BlockRow;
use calls::{BasePoints, ParticipantTerm};
use entries::{
    References, read_block_row, read_few_base, read_only, read_references, read_row, read_shares,
    read_term,
};
use rows::Row;
use words::{Mistake, Words};

#[derive(Clone, Copy)]
pub enum Statement {
    // an empty line, or only a comment
    Blank,
    // the offer cap, in cents
    Cap(u32),
    Row(Row),
    Block(BlockRow),
    Term(ParticipantTerm),
    Reference(References),
    // the shares of a line, bus by bus
    Line([i16; 64]),
    Base(BasePoints),
}

pub fn read_line(line: &str) -> Result<Statement, Mistake>
    ensures fits { IfOk result Fits }
    ensures mistakes { IfErr result (λ m. m ≢ NoSlash) }
{
    let mut words = Words::of(line);
    match words.next() {
        None => Ok(Statement::Blank),
        Some("cap") => Ok(Statement::Cap(read_only(words)?)),
        Some("row") => Ok(Statement::Row(read_row(words)?)),
        Some("block") => Ok(Statement::Block(read_block_row(words)?)),
        Some("term") => Ok(Statement::Term(read_term(words)?)),
        Some("reference") => Ok(Statement::Reference(read_references(words)?)),
        Some("line") => Ok(Statement::Line(read_shares(words)?)),
        Some("base") => Ok(Statement::Base(read_few_base(words)?)),
        Some(_) => Err(Mistake::UnknownWord),
    }
}
