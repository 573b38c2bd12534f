// Constraints are set one at a time.

ghost use Rattle.std.specs.Prelude.{◌≡◌, ℕ, true, ◌&&◌, None, if◌then◌else◌, OnErr, MatchResult, ◌==◌, nat_le, nat_lt};
ghost use Rattle.feasible.specs.Stages.{amount_of, competitive_of, require_fault, limit_fault};

use crate::constraints::Constraints;
use crate::limit::Limit;
use fault::{Cause, Fault};

// The limit of a line for which none is set: 1,000,000 and competitive.
fn fresh() -> Limit
    ensures amount { result.amount ≡ 1000000 }
    ensures competitive { result.competitive ≡ true }
{
    Limit {
        amount: 1_000_000,
        competitive: true,
    }
}

impl Constraints {
    // Requirement 0, and every line with the limit 1,000,000 and competitive.
    pub fn new() -> Constraints
        ensures requirement { result.requirement ≡ 0 }
        ensures amounts { (k : ℕ) → amount_of result k ≡ 1000000 }
        ensures competitive { (k : ℕ) → competitive_of result k ≡ true }
    {
        Constraints {
            requirement: 0,
            lines: [fresh(); 32],
        }
    }

    // Sets the requirement, unless it is over 2,000,000.
    pub fn require(&mut self, requirement: u32) -> Result<(), Fault>
        ensures answer { MatchResult result (λ _. require_fault requirement ≡ None) (λ f. require_fault requirement ≡ Some f) }
        ensures requirement { self.new.requirement ≡ (if nat_le requirement 2000000 then requirement else self.old.requirement) }
        ensures lines { self.new.lines ≡ self.old.lines }
    {
        if requirement > 2_000_000 {
            return Err(Fault::new(Cause::Amount, 0));
        }
        self.requirement = requirement;
        Ok(())
    }

    // Sets one line's limit, unless it is over 1,000,000 or there is no such line.
    pub fn limit(&mut self, line: usize, amount: u32, competitive: bool) -> Result<(), Fault>
        ensures answer { MatchResult result (λ _. limit_fault line amount ≡ None) (λ f. limit_fault line amount ≡ Some f) }
        ensures requirement { self.new.requirement ≡ self.old.requirement }
        ensures amounts { (k : ℕ) → amount_of self.new k ≡ (if nat_lt line 32 && nat_le amount 1000000 && k == line then amount else amount_of self.old k) }
        ensures competitive { (k : ℕ) → competitive_of self.new k ≡ (if nat_lt line 32 && nat_le amount 1000000 && k == line then competitive else competitive_of self.old k) }
        ensures declined { OnErr result (self.new ≡ self.old) }
    {
        if line >= 32 {
            return Err(Fault::new(Cause::Absent, line));
        }
        if amount > 1_000_000 {
            return Err(Fault::new(Cause::Amount, line));
        }
        self.lines[line] = Limit {
            amount,
            competitive,
        };
        Ok(())
    }

    // The limit of a line.
    pub(crate) fn at(&self, line: usize) -> Limit
        ensures amount { result.amount ≡ amount_of self.now line }
        ensures competitive { result.competitive ≡ competitive_of self.now line }
    {
        self.lines.get(line).copied().unwrap_or(fresh())
    }
}
