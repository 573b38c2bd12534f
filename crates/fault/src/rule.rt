// Rules that rows are held to, one rule after another.

ghost use Rattle.std.specs.Prelude.{◌≡◌, Bool, Some, None, MatchResult};
ghost use Rattle.fault.specs.declared.cause.Cause.{Cause};
ghost use Rattle.fault.specs.Rules.{first_broken, too_many};

use crate::cause::{Cause, Fault};

// What a row by itself can break.
pub trait Rule {
    type Row;

    ghost broken: { Self → Self.Row → Bool };

    ghost named: { Self → Cause };

    fn is_broken_by(&self, row: &Self::Row) -> bool
        ensures { result ≡ broken self.now row.now };

    fn cause(&self) -> Cause
        ensures { result ≡ named self.now };
}

// Every row keeps the rule, or the first row that breaks it.
pub fn hold<R: Rule>(rule: &R, rows: &[R::Row]) -> Result<(), Fault>
    ensures { MatchResult result (λ _. first_broken (R.broken rule.now) (R.named rule.now) 0 rows.now ≡ None) (λ f. first_broken (R.broken rule.now) (R.named rule.now) 0 rows.now ≡ Some f) }
{
    for (place, row) in rows.iter().enumerate() {
        if rule.is_broken_by(row) {
            return Err(Fault::new(rule.cause(), place));
        }
    }
    Ok(())
}

// There are no more than so many rows.
pub fn hold_count<T>(rows: &[T], most: usize, cause: Cause) -> Result<(), Fault>
    ensures { MatchResult result (λ _. too_many most cause rows.now ≡ None) (λ f. too_many most cause rows.now ≡ Some f) }
{
    if rows.len() > most {
        return Err(Fault::new(cause, 0));
    }
    Ok(())
}
