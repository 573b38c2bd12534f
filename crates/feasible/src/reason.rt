// Why a dispatch is not feasible.

#[derive(Clone, Copy, Debug, Eq, PartialEq)]
pub enum Infeasible {
    // this participant's base point lies outside its limits
    OutsideLimits(usize),
    // the balance is not the requirement less all readings
    OutOfBalance,
    // this observed line carries more than its limit
    Overloaded(usize),
}
