// A sheet is made empty, filled bus by bus, and read.

ghost use Rattle.std.specs.Prelude.{◌≡◌, ℕ, ◌&&◌, pos, is_ok, if◌then◌else◌, ◌==◌};
ghost use Rattle.network.specs.Sheet.{sheet_of, holds};

use crate::injections::{Injections, NotHeld};

impl Injections {
    // No injection at any bus.
    pub fn new() -> Injections
        ensures { (b : ℕ) → sheet_of result b ≡ pos 0 }
    {
        Injections { at: [0; 64] }
    }

    // The injection at a bus; 0 at a bus that is not there.
    pub fn at(&self, bus: usize) -> i32
        ensures { result ≡ sheet_of self.now bus }
    {
        self.at.get(bus).copied().unwrap_or(0)
    }

    // Another injection at a bus, unless there is no such bus or a sheet cannot hold the amount: then nothing changes.
    pub fn put(&mut self, bus: usize, amount: i32) -> Result<(), NotHeld>
        ensures value { is_ok result ≡ holds bus amount }
        ensures after { (b : ℕ) → sheet_of self.new b ≡ (if holds bus amount && b == bus then amount else sheet_of self.old b) }
    {
        if bus >= 64 || !(-1_280_000..=1_280_000).contains(&amount) {
            return Err(NotHeld);
        }
        self.at[bus] = amount;
        Ok(())
    }
}
