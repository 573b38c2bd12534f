// The two steps of a dispatch run.

ghost use Rattle.feasible.specs.Stages.{Names};

use fault::{Cause, Fault};

// The first observes competitive lines, the second all.
#[derive(Clone, Copy, Debug, Eq, PartialEq)]
pub enum Stage {
    First,
    Second,
}

// By the number of the step; there is no other than 1 and 2.
impl TryFrom<u8> for Stage {
    type Error = Fault;

    ghost try_from_gives = { Names };

    fn try_from(number: u8) -> Result<Stage, Fault> {
        match number {
            1 => Ok(Stage::First),
            2 => Ok(Stage::Second),
            _ => Err(Fault::new(Cause::StepNumber, 0)),
        }
    }
}
