// Terms are made within their ranges, and bound a price.

ghost use Rattle.std.specs.Prelude.{◌≡◌, true, false, pos, ◌≤ℤ◌, MatchOption};
ghost use Rattle.bounded.specs.Mitigation.{in_range, floor_of, ceiling_of, mitigated, lowered};
ghost use Rattle.bounded.specs.Tabled.{terms_of, fresh_term};

use crate::term::Term;

impl Term {
    // The term of a new run: floor −25,000, cap 0, adder 0, not subject to mitigation.
    pub fn fresh() -> Term
        ensures { terms_of result ≡ terms_of fresh_term }
    {
        Term {
            floor: -25_000,
            ceiling: 0,
            adder: 0,
            subject: false,
        }
    }

    // The term, unless a number is out of its range.
    pub fn new(floor: i32, ceiling: i32, adder: u32, subject: bool) -> Option<Term>
        ensures { MatchOption result (in_range floor ceiling adder ≡ false) (λ t. (in_range floor ceiling adder ≡ true) × (terms_of t ≡ record { floor = floor; ceiling = ceiling; adder = adder; subject = subject })) }
    {
        if !(-25_000..=1_000_000).contains(&floor) || !(0..=1_000_000).contains(&ceiling) {
            return None;
        }
        if adder > ceiling.unsigned_abs() / 100 {
            return None;
        }
        Some(Term {
            floor,
            ceiling,
            adder,
            subject,
        })
    }

    // The least price that a generator with this reference price may have.
    fn least(&self, reference: i32) -> i32
        ensures { result ≡ floor_of (terms_of self.now) reference }
    {
        reference.min(self.floor)
    }

    // The greatest price that a generator subject to mitigation may have.
    fn most(&self, reference: i32) -> i64
        ensures value { result ≡ ceiling_of (terms_of self.now) reference }
        ensures positive { pos 0 ≤ℤ result }
    {
        (i64::from(reference) + i64::from(self.adder)).max(i64::from(self.ceiling))
    }

    // The price as mitigation bounds it, for a generator with this reference price.
    pub fn mitigate(&self, reference: i32, price: i32) -> i32
        ensures { result ≡ mitigated (terms_of self.now) reference price }
    {
        self.lower(self.most(reference), price)
            .max(self.least(reference))
    }

    fn lower(&self, most: i64, price: i32) -> i32
        requires { pos 0 ≤ℤ most }
        ensures { result ≡ lowered self.now.subject most price }
    {
        if self.subject {
            most.min(i64::from(price)) as i32
        } else {
            price
        }
    }
}
