// The four classes of a participant.

ghost use Rattle.std.specs.Prelude.{◌≡◌};
ghost use Rattle.rows.specs.Classes.{class_of};

use fault::{Cause, Fault};

#[derive(Clone, Copy, Debug, Eq, PartialEq)]
pub enum Class {
    // a generation resource that submits curves or an Output Schedule
    Thermal,
    // an intermittent renewable: wind or solar
    Renewable,
    // a unit committed for reliability
    Committed,
    // a load that bids
    Load,
}

// The class that a letter names. A letter alone has no row, so its fault has place 0.
impl TryFrom<char> for Class {
    type Error = Fault;

    ghost try_from_gives = { λ letter r. r ≡ class_of letter };

    fn try_from(letter: char) -> Result<Class, Fault> {
        match letter {
            'N' => Ok(Class::Thermal),
            'I' => Ok(Class::Renewable),
            'R' => Ok(Class::Committed),
            'L' => Ok(Class::Load),
            _ => Err(Fault::new(Cause::ClassLetter, 0)),
        }
    }
}
