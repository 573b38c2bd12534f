// The lines of a script, one after another: the rows of one book, of either kind, and then the
// terms and the reference prices of its participants. The cap of house rows comes before them.

ghost use Rattle.std.specs.Prelude.{◌≡◌, [], ◌∷◌, ◌++◌, is_some, IfErr, if◌then◌else◌, Some, None, vec_len, MatchResult, OnOk, nat_eq};
ghost use Rattle.shell.specs.declared.flaw.Flaw.TheVariants.{NoCap, SecondCap, Mixed, SecondReference, PriceCount};
ghost use Rattle.shell.specs.declared.stop.Stop.TheVariants.{Malformed};

use block::BlockRow;
use calls::ParticipantTerm;
use entries::References;
use rows::Row;
use script::{Statement, read_line};
use shell::{Flaw, Stop};
use std::alloc::Global;
use words::Mistake;

// Each program keeps an input of its own: each closes its lists by another rule, and one for all would be no plainer,
// since it would be told which.
#[derive(Drop)]
pub(crate) struct Input {
    // how many lines were read
    lines: usize,
    // a cap and rows, or blocks: which of the two is known only from the first of them, so an enum would have a third case
    cap: Option<u32>,
    rows: Vec<Row>,
    blocks: Vec<BlockRow>,
    terms: Vec<ParticipantTerm>,
    references: Option<References>,
}

impl Input {
    pub(crate) fn new(heap: Global) -> Input
        ensures house { (result.lines ≡ 0) × ((result.cap ≡ None) × (result.rows.items ≡ [])) }
        ensures others { (result.blocks.items ≡ []) × ((result.terms.items ≡ []) × (result.references ≡ None)) }
    {
        Input {
            lines: 0,
            cap: None,
            rows: Vec::new(heap),
            blocks: Vec::new(heap),
            terms: Vec::new(heap),
            references: None,
        }
    }

    pub(crate) fn rows(&self) -> &[Row]
        ensures { result.now ≡ self.now.rows.items }
    {
        self.rows.as_slice()
    }

    pub(crate) fn blocks(&self) -> &[BlockRow]
        ensures { result.now ≡ self.now.blocks.items }
    {
        self.blocks.as_slice()
    }

    pub(crate) fn terms(&self) -> &[ParticipantTerm]
        ensures { result.now ≡ self.now.terms.items }
    {
        self.terms.as_slice()
    }

    pub(crate) fn references(&self) -> Option<References>
        ensures { result ≡ self.now.references }
    {
        self.references
    }

    // The cap of house rows. Where no line gave one, the last line is named, or line 0 where there
    // is none.
    pub(crate) fn cap(&self) -> Result<u32, Stop>
        ensures { MatchResult result (λ cents. self.now.cap ≡ Some cents) (λ s. (self.now.cap ≡ None) × (s ≡ Malformed self.now.lines NoCap)) }
    {
        self.cap.ok_or(Stop::Malformed(self.lines, Flaw::NoCap))
    }

    pub(crate) fn read(&mut self, line: &str) -> Result<(), Stop> {
        self.lines = self.lines.saturating_add(1);
        match read_line(line) {
            Ok(Statement::Blank) => Ok(()),
            Ok(Statement::Cap(cents)) => self.set_cap(cents),
            Ok(Statement::Row(row)) => self.add_row(row),
            Ok(Statement::Block(row)) => self.add_block(row),
            Ok(Statement::Term(term)) => self.add_term(term),
            Ok(Statement::Reference(references)) => self.refer(references),
            Ok(Statement::Line(_) | Statement::Base(_)) => {
                self.flawed(Flaw::Form(Mistake::UnknownWord))
            }
            Err(mistake) => self.flawed(Flaw::Form(mistake)),
        }
    }

    // The next line holds bytes that are no text.
    pub(crate) fn not_text(&self) -> Stop {
        Stop::Malformed(self.lines.saturating_add(1), Flaw::NotText)
    }

    // The line that was read last has this flaw.
    fn flawed<T>(&self, flaw: Flaw) -> Result<T, Stop>
        ensures { MatchResult result (λ _. ⊥) (λ s. s ≡ Malformed self.now.lines flaw) }
    {
        Err(Stop::Malformed(self.lines, flaw))
    }

    // Each of the three programs keeps lists of its own and holds its lines to an order of its own. What is alike in two of
    // them, as this and the number of the last line, looks at those lists or names their flaws.
    fn set_cap(&mut self, cents: u32) -> Result<(), Stop>
        ensures first { OnOk result ((self.old.cap ≡ None) × (self.new.cap ≡ Some cents)) }
        ensures again { IfErr result (λ s. s ≡ Malformed self.old.lines (if is_some self.old.cap then SecondCap else Mixed)) }
    {
        if self.cap.is_some() {
            return self.flawed(Flaw::SecondCap);
        }
        if !self.blocks.is_empty() {
            return self.flawed(Flaw::Mixed);
        }
        self.cap = Some(cents);
        Ok(())
    }

    fn add_row(&mut self, row: Row) -> Result<(), Stop>
        ensures { OnOk result (self.new.rows.items ≡ self.old.rows.items ++ row ∷ []) }
    {
        if !self.blocks.is_empty() {
            return self.flawed(Flaw::Mixed);
        }
        if self.cap.is_none() {
            return self.flawed(Flaw::NoCap);
        }
        if self.rows_are_done() {
            return self.flawed(Flaw::RowAfterTerms);
        }
        self.rows.push(row)?;
        Ok(())
    }

    fn add_block(&mut self, row: BlockRow) -> Result<(), Stop>
        ensures { OnOk result ((self.old.cap ≡ None) × (self.new.blocks.items ≡ self.old.blocks.items ++ row ∷ [])) }
    {
        if self.cap.is_some() {
            return self.flawed(Flaw::Mixed);
        }
        if self.rows_are_done() {
            return self.flawed(Flaw::RowAfterTerms);
        }
        self.blocks.push(row)?;
        Ok(())
    }

    fn add_term(&mut self, term: ParticipantTerm) -> Result<(), Stop>
        ensures { OnOk result (self.new.terms.items ≡ self.old.terms.items ++ term ∷ []) }
    {
        self.terms.push(term)?;
        Ok(())
    }

    // The reference prices come once, one for each row.
    fn refer(&mut self, references: References) -> Result<(), Stop>
        ensures first { OnOk result ((self.old.references ≡ None) × (self.new.references ≡ Some references)) }
        ensures again { IfErr result (λ s. s ≡ Malformed self.old.lines (if is_some self.old.references then SecondReference else PriceCount)) }
    {
        if self.references.is_some() {
            return self.flawed(Flaw::SecondReference);
        }
        if references.count != self.participants() {
            return self.flawed(Flaw::PriceCount);
        }
        self.references = Some(references);
        Ok(())
    }

    // How many rows there are, of whichever kind.
    fn participants(&self) -> usize
        ensures { result ≡ (if nat_eq (vec_len self.now.blocks) 0 then vec_len self.now.rows else vec_len self.now.blocks) }
    {
        if self.blocks.is_empty() {
            self.rows.len()
        } else {
            self.blocks.len()
        }
    }

    // Whether terms or reference prices were given, after which no row comes.
    fn rows_are_done(&self) -> bool {
        !self.terms.is_empty() || self.references.is_some()
    }
}
