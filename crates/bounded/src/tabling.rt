// The table is filled entry by entry, and bounds a price by the entries of its participant.

ghost use Rattle.std.specs.Prelude.{◌≡◌, ◌<◌};
ghost use Rattle.bounded.specs.Mitigation.{applied};
ghost use Rattle.bounded.specs.Tabled.{terms_of, layer_of, fresh_layer, with_term, with_references, without_references};

use crate::table::Table;
use crate::term::Term;

impl Table {
    // Every term as in a new run, and no reference prices.
    pub fn new() -> Table
        ensures { layer_of result ≡ fresh_layer }
    {
        Table {
            terms: [Term::fresh(); 64],
            references: [0; 64],
            referenced: false,
        }
    }

    // Another term for one participant; of a participant past the sixty-fourth nothing is kept. By `get_mut` the proof
    // was tried, and did not close.
    pub fn set_term(&mut self, participant: usize, term: Term)
        ensures { layer_of self.new ≡ with_term (layer_of self.old) participant (terms_of term) }
    {
        if participant < 64 {
            self.terms[participant] = term;
        }
    }

    // The reference prices of a first step, one for each participant.
    pub fn refer(&mut self, references: [i32; 64])
        ensures { layer_of self.new ≡ with_references (layer_of self.old) references }
    {
        self.references = references;
        self.referenced = true;
    }

    // No first step, and so no reference prices: the last ones stay, unread.
    pub fn clear(&mut self)
        ensures { layer_of self.new ≡ without_references (layer_of self.old) }
    {
        self.referenced = false;
    }

    pub(crate) fn apply(&self, participant: usize, price: i32) -> i32
        requires { participant < 64 }
        ensures { result ≡ applied (layer_of self.now) participant price }
    {
        if self.referenced {
            self.terms[participant].mitigate(self.references[participant], price)
        } else {
            price
        }
    }
}
