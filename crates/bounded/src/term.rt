// One participant's mitigation terms.

ghost use Rattle.std.specs.Prelude.{◌≡◌, ◌*◌, ◌≤◌, pos, negsuc, ◌≤ℤ◌};

// Prices in cents. The adder is at most a hundredth of the cap.
#[derive(Clone, Copy)]
pub struct Term {
    pub(crate) floor: i32,
    pub(crate) ceiling: i32,
    pub(crate) adder: u32,
    pub(crate) subject: bool,
    ghost bottom: { negsuc 24999 ≤ℤ floor },
    ghost under: { floor ≤ℤ pos 1000000 },
    ghost positive: { pos 0 ≤ℤ ceiling },
    ghost within: { ceiling ≤ℤ pos 1000000 },
    ghost hundredth: { pos (100 * adder) ≤ℤ ceiling },
}
