// What a line says, by its first word.

ghost use Rattle.std.specs.Prelude.{◌≢◌, IfErr};
ghost use Rattle.words.specs.declared.mistake.Mistake.TheVariants.{ManyBasePoints};

use crate::proposal::read_proposal;
use crate::terms::{read_limit, read_requirement};
use block::BlockRow;
use calls::{BasePoints, Call, Proposal};
use entries::{
    References, read_base, read_block_row, read_only, read_references, read_row, read_shares,
    read_term,
};
use rows::Row;
use words::{Mistake, Words};

#[derive(Clone, Copy)]
pub enum Statement {
    // an empty line, or only a comment
    Blank,
    // the offer cap, in cents
    Cap(u32),
    Row(Row),
    Block(BlockRow),
    Reference(References),
    // the shares of a line, bus by bus
    Line([i16; 64]),
    Base(BasePoints),
    Call(Call),
    // a proposal that is only to be weighed
    Weigh(Proposal),
    // the step whose listing is asked for, as a number: one that is no step has to be declined by its rule
    Listing(u8),
}

// Five words make what they make in `script`, as variants of another type: to let one match call the other would name
// each of them twice, and be no plainer.
pub fn read_line(line: &str) -> Result<Statement, Mistake>
    ensures { IfErr result (λ m. m ≢ ManyBasePoints) }
{
    let mut words = Words::of(line);
    match words.next() {
        None => Ok(Statement::Blank),
        Some("cap") => Ok(Statement::Cap(read_only(words)?)),
        Some("row") => Ok(Statement::Row(read_row(words)?)),
        Some("block") => Ok(Statement::Block(read_block_row(words)?)),
        Some("reference") => Ok(Statement::Reference(read_references(words)?)),
        Some("line") => Ok(Statement::Line(read_shares(words)?)),
        Some("base") => Ok(Statement::Base(read_base(words)?)),
        Some("require") => Ok(Statement::Call(Call::Require(read_requirement(words)?))),
        Some("limit") => Ok(Statement::Call(Call::Limit(read_limit(words)?))),
        Some("term") => Ok(Statement::Call(Call::Term(read_term(words)?))),
        Some("propose") => Ok(Statement::Call(Call::Propose(read_proposal(words)?))),
        Some("weigh") => Ok(Statement::Weigh(read_proposal(words)?)),
        Some("listing") => Ok(Statement::Listing(read_only(words)?)),
        Some(_) => Err(Mistake::UnknownWord),
    }
}
