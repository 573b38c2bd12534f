// The layer is made over a book, and its table is set from outside.

ghost use Rattle.std.specs.Prelude.{◌≡◌, ℕ, ℤ};
ghost use Rattle.bounded.specs.Tabled.{terms_of, layer_of, fresh_layer, with_term, with_references, without_references};
ghost use Rattle.bounded.specs.Mitigation.{applied};

use crate::bounded::Bounded;
use crate::table::Table;
use crate::term::Term;

impl<B> Bounded<B> {
    // The layer of a new run: every term fresh, and all prices pass unchanged.
    pub fn new(book: B) -> Bounded<B>
        ensures same { result.book ≡ book }
        ensures layer { layer_of result.table ≡ fresh_layer }
    {
        Bounded {
            book,
            table: Table::new(),
        }
    }

    // The book below.
    pub fn below(&self) -> &B
        ensures { result.now ≡ self.now.book }
    {
        &self.book
    }

    // Another term for one participant.
    pub fn set_term(&mut self, participant: usize, term: Term)
        ensures same { self.new.book ≡ self.old.book }
        ensures layer { layer_of self.new.table ≡ with_term (layer_of self.old.table) participant (terms_of term) }
    {
        self.table.set_term(participant, term);
    }

    // The reference prices of a first step.
    pub fn refer(&mut self, references: [i32; 64])
        ensures same { self.new.book ≡ self.old.book }
        ensures layer { layer_of self.new.table ≡ with_references (layer_of self.old.table) references }
    {
        self.table.refer(references);
    }

    // No reference prices.
    pub fn clear(&mut self)
        ensures same { self.new.book ≡ self.old.book }
        ensures layer { layer_of self.new.table ≡ without_references (layer_of self.old.table) }
        ensures prices { (i : ℕ) (p : ℤ) → applied (layer_of self.new.table) i p ≡ applied (without_references (layer_of self.old.table)) i p }
    {
        self.table.clear();
    }
}
