// What a script has said so far: one book, of either kind, and the lines of a network, and then calls and what else is
// asked of them. The cap of house rows comes before them.

ghost use Rattle.std.specs.Prelude.{◌≡◌, ◌+◌, min, [], ◌∷◌, ◌++◌, is_some, IfErr, if◌then◌else◌, Some, None, Ok, Err, vec_len};
ghost use Rattle.input.specs.Booked.{has_book};
ghost use Rattle.input.specs.Order.{Taken, Flawed, cap_flaw, row_flaw, block_flaw, late_flaw, book_flaw, but_cap, but_rows, but_blocks, but_shares, but_calls, but_asked};
ghost use Rattle.input.specs.Stops.{Stops};
ghost use Rattle.input.specs.declared.asked.Asked.TheVariants.{Call as Called};
ghost use Rattle.shell.specs.declared.flaw.Flaw.TheVariants.{NotText, NoBook, SecondCap, Mixed};
ghost use Rattle.shell.specs.declared.stop.Stop.TheVariants.{Malformed};

use crate::asked::Asked;
use block::BlockRow;
use calls::Call;
use rows::Row;
use script_runs::{Statement, read_line};
use shell::{Flaw, Stop};
use std::alloc::Global;
use words::Mistake;

#[derive(Drop)]
pub struct Input {
    // how many lines of the script were read
    read: usize,
    // a cap and rows, or blocks: which of the two is known only from the first of them, so an enum would have a third case
    cap: Option<u32>,
    rows: Vec<Row>,
    blocks: Vec<BlockRow>,
    shares: Vec<[i16; 64]>,
    calls: Vec<Call>,
    asked: Vec<Asked>,
}

impl Input {
    pub fn new(heap: Global) -> Input
        ensures book { (result.read ≡ 0) × ((result.cap ≡ None) × ((result.rows.items ≡ []) × (result.blocks.items ≡ []))) }
        ensures others { (result.shares.items ≡ []) × ((result.calls.items ≡ []) × (result.asked.items ≡ [])) }
    {
        Input {
            read: 0,
            cap: None,
            rows: Vec::new(heap),
            blocks: Vec::new(heap),
            shares: Vec::new(heap),
            calls: Vec::new(heap),
            asked: Vec::new(heap),
        }
    }

    // The offer cap of a house book; a block book has none.
    pub fn cap(&self) -> Option<u32>
        ensures { result ≡ self.now.cap }
    {
        self.cap
    }

    pub fn rows(&self) -> &[Row]
        ensures { result.now ≡ self.now.rows.items }
    {
        self.rows.as_slice()
    }

    pub fn blocks(&self) -> &[BlockRow]
        ensures { result.now ≡ self.now.blocks.items }
    {
        self.blocks.as_slice()
    }

    // Each line's shares.
    pub fn shares(&self) -> &[[i16; 64]]
        ensures { result.now ≡ self.now.shares.items }
    {
        self.shares.as_slice()
    }

    // What is asked of a run, in order.
    pub fn calls(&self) -> &[Call]
        ensures { result.now ≡ self.now.calls.items }
    {
        self.calls.as_slice()
    }

    pub fn asked(&self) -> &[Asked]
        ensures { result.now ≡ self.now.asked.items }
    {
        self.asked.as_slice()
    }

    // One line more.
    pub fn read(&mut self, line: &str) -> Result<(), Stop>
        ensures line { self.new.read ≡ min (self.old.read + 1) 18446744073709551615 }
        ensures stops { IfErr result (Stops self.new.read) }
    {
        self.read = self.read.saturating_add(1);
        let made = self.calls.len();
        match read_line(line) {
            Ok(Statement::Blank) => Ok(()),
            Ok(Statement::Cap(cents)) => self.set_cap(cents),
            Ok(Statement::Row(row)) => self.add_row(row),
            Ok(Statement::Block(row)) => self.add_block(row),
            Ok(Statement::Line(shares)) => self.add_line(shares),
            Ok(Statement::Call(call)) => self.add_call(call),
            Ok(Statement::Weigh(proposal)) => self.ask(Asked::Weigh(made, proposal)),
            Ok(Statement::Listing(step)) => self.ask(Asked::Listing(made, step)),
            Ok(Statement::Base(base)) => self.ask(Asked::Base(base)),
            Ok(Statement::Reference(_)) => self.flawed(Flaw::Form(Mistake::UnknownWord)),
            Err(mistake) => self.flawed(Flaw::Form(mistake)),
        }
    }

    // The next line holds bytes that are no text.
    pub fn not_text(&self) -> Stop
        ensures { result ≡ Malformed (min (self.now.read + 1) 18446744073709551615) NotText }
    {
        Stop::Malformed(self.read.saturating_add(1), Flaw::NotText)
    }

    // A cap or a block has been read, and so there is a book.
    pub fn check_book(&self) -> Result<(), Stop>
        ensures { result ≡ (if has_book self.now then Ok tt else Err (Malformed self.now.read NoBook)) }
    {
        if self.cap.is_none() && self.blocks.is_empty() {
            return self.flawed(Flaw::NoBook);
        }
        Ok(())
    }

    // The line that was read last has this flaw.
    fn flawed(&self, flaw: Flaw) -> Result<(), Stop>
        ensures { result ≡ Err (Malformed self.now.read flaw) }
    {
        Err(Stop::Malformed(self.read, flaw))
    }

    // Each of the three programs keeps lists of its own and holds its lines to an order of its own. What is alike in two of
    // them, as this and the number of the last line, looks at those lists or names their flaws.
    fn set_cap(&mut self, cents: u32) -> Result<(), Stop>
        ensures taken { Taken (cap_flaw self.old) result (self.new.cap ≡ Some cents) }
        ensures flawed { Flawed (cap_flaw self.old) self.old self.new result }
        ensures only { self.new ≡ but_cap self.old self.new }
        ensures stops { IfErr result (Stops self.old.read) }
        ensures again { IfErr result (λ s. s ≡ Malformed self.old.read (if is_some self.old.cap then SecondCap else Mixed)) }
    {
        if self.cap.is_some() {
            return self.flawed(Flaw::SecondCap);
        }
        if !self.blocks.is_empty() {
            return self.flawed(Flaw::Mixed);
        }
        self.cap = Some(cents);
        Ok(())
    }

    fn add_row(&mut self, row: Row) -> Result<(), Stop>
        ensures taken { Taken (row_flaw self.old) result (self.new.rows.items ≡ self.old.rows.items ++ row ∷ []) }
        ensures flawed { Flawed (row_flaw self.old) self.old self.new result }
        ensures only { self.new ≡ but_rows self.old self.new }
        ensures stops { IfErr result (Stops self.old.read) }
    {
        if !self.blocks.is_empty() {
            return self.flawed(Flaw::Mixed);
        }
        if self.cap.is_none() {
            return self.flawed(Flaw::NoCap);
        }
        if !self.asked.is_empty() {
            return self.flawed(Flaw::Late);
        }
        self.rows.push(row)?;
        Ok(())
    }

    fn add_block(&mut self, row: BlockRow) -> Result<(), Stop>
        ensures taken { Taken (block_flaw self.old) result (self.new.blocks.items ≡ self.old.blocks.items ++ row ∷ []) }
        ensures flawed { Flawed (block_flaw self.old) self.old self.new result }
        ensures only { self.new ≡ but_blocks self.old self.new }
        ensures stops { IfErr result (Stops self.old.read) }
    {
        if self.cap.is_some() {
            return self.flawed(Flaw::Mixed);
        }
        if !self.asked.is_empty() {
            return self.flawed(Flaw::Late);
        }
        self.blocks.push(row)?;
        Ok(())
    }

    fn add_line(&mut self, shares: [i16; 64]) -> Result<(), Stop>
        ensures taken { Taken (late_flaw self.old) result (self.new.shares.items ≡ self.old.shares.items ++ shares ∷ []) }
        ensures flawed { Flawed (late_flaw self.old) self.old self.new result }
        ensures only { self.new ≡ but_shares self.old self.new }
        ensures stops { IfErr result (Stops self.old.read) }
    {
        if !self.asked.is_empty() {
            return self.flawed(Flaw::Late);
        }
        self.shares.push(shares)?;
        Ok(())
    }

    fn add_call(&mut self, call: Call) -> Result<(), Stop>
        ensures taken { Taken (book_flaw self.old) result ((self.new.calls.items ≡ self.old.calls.items ++ call ∷ []) × (self.new.asked.items ≡ self.old.asked.items ++ Called (vec_len self.old.calls) ∷ [])) }
        ensures flawed { Flawed (book_flaw self.old) self.old self.new result }
        ensures only { self.new ≡ but_calls self.old self.new }
        ensures stops { IfErr result (Stops self.old.read) }
    {
        let place = self.calls.len();
        self.ask(Asked::Call(place))?;
        self.calls.push(call)?;
        Ok(())
    }

    fn ask(&mut self, asked: Asked) -> Result<(), Stop>
        ensures taken { Taken (book_flaw self.old) result (self.new.asked.items ≡ self.old.asked.items ++ asked ∷ []) }
        ensures flawed { Flawed (book_flaw self.old) self.old self.new result }
        ensures only { self.new ≡ but_asked self.old self.new }
        ensures stops { IfErr result (Stops self.old.read) }
    {
        self.check_book()?;
        self.asked.push(asked)?;
        Ok(())
    }
}
