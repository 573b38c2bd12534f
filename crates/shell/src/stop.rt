// Why a program ends before its script does.

ghost use Rattle.std.specs.Prelude.{◌≡◌};
ghost use Rattle.shell.specs.declared.stop.Stop.TheVariants.{Refused as Declined, Failed};
ghost use Rattle.std.specs.declared.io.Error.{Error as IoError};

use crate::flaw::Flaw;
use fault::Fault;
use std::alloc::AllocFailed;
use std::io;

#[derive(Drop)]
pub enum Stop {
    // a line of the script, by its number from 1
    Malformed(usize, Flaw),
    // a book or a network that is declined by a rule
    Refused(Fault),
    // memory, input or output
    Failed(io::Error),
}

impl From<Fault> for Stop {
    ghost from_gives = { λ fault r. r ≡ Declined fault };

    fn from(fault: Fault) -> Stop {
        Stop::Refused(fault)
    }
}

impl From<io::Error> for Stop {
    fn from(error: io::Error) -> Stop {
        Stop::Failed(error)
    }
}

impl<T: Drop> From<AllocFailed<T>> for Stop {
    ghost from_gives = { λ _ r. (e : IoError) × (r ≡ Failed e) };

    fn from(refused: AllocFailed<T>) -> Stop {
        Stop::Failed(io::Error::from(refused))
    }
}
