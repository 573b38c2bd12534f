// A book under its terms and reference prices.

ghost use Rattle.std.specs.Prelude.{◌≡◌, Some, None, MatchResult};
ghost use Rattle.bounded.specs.Tabled.{terms_of, layer_of, fresh_layer};
ghost use Rattle.curves.specs.Terms.{asked, declined, first_declined, termed, referred};

use book::OfferBook;
use bounded::{Bounded, Term};
use calls::ParticipantTerm;
use entries::References;
use fault::{Cause, Fault};

// The book with each term in its place, unless one is declined.
pub(crate) fn mitigated<B: OfferBook + Drop>(
    book: B,
    terms: &[ParticipantTerm],
    references: Option<References>,
) -> Result<Bounded<B>, Fault>
    ensures { MatchResult result (λ b. (b.book ≡ book) × (first_declined (B.OfferBook.meaning book).count terms.now ≡ None) × (layer_of b.table ≡ referred (termed fresh_layer terms.now) references)) (λ f. first_declined (B.OfferBook.meaning book).count terms.now ≡ Some f) }
{
    let count = book.count();
    let mut bounded = Bounded::new(book);
    set_terms(&mut bounded, count, terms)?;
    if let Some(given) = references {
        bounded.refer(given.items);
    }
    Ok(bounded)
}

// The terms of all lines, of a book with so many participants.
fn set_terms<B>(book: &mut Bounded<B>, count: usize, terms: &[ParticipantTerm]) -> Result<(), Fault>
    ensures same { book.new.book ≡ book.old.book }
    ensures set { MatchResult result (λ _. (first_declined count terms.now ≡ None) × (layer_of book.new.table ≡ termed (layer_of book.old.table) terms.now)) (λ f. first_declined count terms.now ≡ Some f) }
{
    for line in terms {
        let term = term_of(count, line)?;
        book.set_term(line.participant, term);
    }
    Ok(())
}

// The term of a line, for a participant out of so many.
fn term_of(count: usize, line: &ParticipantTerm) -> Result<Term, Fault>
    ensures { MatchResult result (λ t. (declined count line.now ≡ None) × (terms_of t ≡ asked line.now)) (λ f. declined count line.now ≡ Some f) }
{
    if line.participant >= count {
        return Err(Fault::new(Cause::Absent, line.participant));
    }
    Term::new(line.floor, line.ceiling, line.adder, line.subject).ok_or(Fault::new(
        Cause::Amount,
        line.participant,
    ))
}
