// What a script has said so far. The cap comes first, then the rows, then the lines of the network;
// the first base points close them.

ghost use Rattle.std.specs.Prelude.{◌≡◌, ℕ, [], ◌∷◌, ◌++◌, IfOk, IfErr, Some, None, Ok, vec_len, OnOk};
ghost use Rattle.replay.specs.Loaded.{Loaded};
ghost use Rattle.shell.specs.declared.flaw.Flaw.TheVariants.{SecondCap};
ghost use Rattle.shell.specs.declared.stop.Stop.TheVariants.{Malformed};

use crate::loading::Market;
use calls::BasePoints;
use rows::Row;
use script::{Statement, read_line};
use shell::{Flaw, Stop};
use std::alloc::Global;
use words::Mistake;

// Each program keeps an input of its own: each closes its lists by another rule, and one for all would be no plainer,
// since it would be told which.
#[derive(Drop)]
pub(crate) struct Input {
    // how many lines of the script were read
    read: usize,
    cap: Option<u32>,
    rows: Vec<Row>,
    shares: Vec<[i16; 64]>,
    // loaded by the first base points
    market: Option<Market>,
}

impl Input {
    pub(crate) fn new(heap: Global) -> Input
        ensures { (result.read ≡ 0) × ((result.cap ≡ None) × ((result.rows.items ≡ []) × ((result.shares.items ≡ []) × (result.market ≡ None)))) }
    {
        Input {
            read: 0,
            cap: None,
            rows: Vec::new(heap),
            shares: Vec::new(heap),
            market: None,
        }
    }

    // One line more, and its base points where it has some.
    pub(crate) fn read(&mut self, line: &str) -> Result<Option<BasePoints>, Stop> {
        self.read = self.read.saturating_add(1);
        match read_line(line) {
            Ok(Statement::Blank) => {}
            Ok(Statement::Cap(cents)) => self.set_cap(cents)?,
            Ok(Statement::Row(row)) => self.add_row(row)?,
            Ok(Statement::Line(shares)) => self.add_line(shares)?,
            Ok(Statement::Base(base)) => return Ok(Some(base)),
            Ok(Statement::Block(_) | Statement::Term(_) | Statement::Reference(_)) => {
                return Err(self.malformed(Flaw::Form(Mistake::UnknownWord)));
            }
            Err(mistake) => return Err(self.malformed(Flaw::Form(mistake))),
        }
        Ok(None)
    }

    // The next line holds bytes that are no text.
    pub(crate) fn not_text(&self) -> Stop {
        Stop::Malformed(self.read.saturating_add(1), Flaw::NotText)
    }

    // The market of what was read, loaded at the first call.
    pub(crate) fn market(&mut self) -> Result<Market, Stop>
        ensures after { IfOk result (λ m. self.new.market ≡ Some m) }
        ensures again { (m : Market) → self.old.market ≡ Some m → result ≡ Ok m }
        ensures first { (w : ℕ) → self.old.cap ≡ Some w → self.old.market ≡ None → IfOk result (Loaded w self.old.rows.items self.old.shares.items) }
    {
        if let Some(market) = self.market {
            return Ok(market);
        }
        let Some(cents) = self.cap else {
            return Err(self.malformed(Flaw::NoCap));
        };
        let market = Market::load(cents, self.rows.as_slice(), self.shares.as_slice())?;
        self.market = Some(market);
        Ok(market)
    }

    fn malformed(&self, flaw: Flaw) -> Stop
        ensures { result ≡ Malformed self.now.read flaw }
    {
        Stop::Malformed(self.read, flaw)
    }

    // Each of the three programs keeps lists of its own and holds its lines to an order of its own. What is alike in two of
    // them, as this and the number of the last line, looks at those lists or names their flaws.
    fn set_cap(&mut self, cents: u32) -> Result<(), Stop>
        ensures first { OnOk result ((self.old.cap ≡ None) × (self.new.cap ≡ Some cents)) }
        ensures again { IfErr result (λ s. s ≡ Malformed self.old.read SecondCap) }
    {
        if self.cap.is_some() {
            return Err(self.malformed(Flaw::SecondCap));
        }
        self.cap = Some(cents);
        Ok(())
    }

    fn add_row(&mut self, row: Row) -> Result<(), Stop>
        ensures { OnOk result ((vec_len self.old.shares ≡ 0) × (self.old.market ≡ None) × (self.new.rows.items ≡ self.old.rows.items ++ row ∷ [])) }
    {
        if self.cap.is_none() {
            return Err(self.malformed(Flaw::NoCap));
        }
        if !self.shares.is_empty() || self.market.is_some() {
            return Err(self.malformed(Flaw::RowAfterLines));
        }
        self.rows.push(row)?;
        Ok(())
    }

    fn add_line(&mut self, shares: [i16; 64]) -> Result<(), Stop>
        ensures { OnOk result ((self.old.market ≡ None) × (self.new.shares.items ≡ self.old.shares.items ++ shares ∷ [])) }
    {
        if self.cap.is_none() {
            return Err(self.malformed(Flaw::NoCap));
        }
        if self.market.is_some() {
            return Err(self.malformed(Flaw::LineAfterBase));
        }
        self.shares.push(shares)?;
        Ok(())
    }
}
