// What is wrong with a line of a script.

ghost use Rattle.std.specs.Prelude.{◌≡◌, Some};
ghost use Rattle.shell.specs.Flaws.{flaw_reason};

use std::error::Error;
use std::fmt;
use words::Mistake;

#[derive(Clone, Copy, Debug, PartialEq, Eq)]
pub enum Flaw {
    Form(Mistake),
    NotText,
    NoBook,
    NoCap,
    SecondCap,
    Mixed,
    Late,
    RowAfterLines,
    LineAfterBase,
    RowAfterTerms,
    SecondReference,
    PriceCount,
}

impl Flaw {
    // Without a formatter, which may fail.
    pub fn reason(self) -> &'static str
        ensures { result.now ≡ flaw_reason self }
    {
        match self {
            Flaw::Form(mistake) => mistake.reason(),
            Flaw::NotText => "not text",
            Flaw::NoBook => "neither cap nor block",
            Flaw::NoCap => "no cap",
            Flaw::SecondCap => "a second cap",
            Flaw::Mixed => "house rows and blocks in one book",
            Flaw::Late => "book and network come first",
            Flaw::RowAfterLines => "a row after a line or base points",
            Flaw::LineAfterBase => "a line after base points",
            Flaw::RowAfterTerms => "a row after terms or reference prices",
            Flaw::SecondReference => "a second line of reference prices",
            Flaw::PriceCount => "not one reference price for each row",
        }
    }
}

impl fmt::Display for Flaw {
    ghost output = { λ flaw. Some (flaw_reason flaw) };

    fn fmt<W: fmt::Write>(&self, f: &mut fmt::Formatter<W>) -> fmt::Result {
        f.write_str(self.reason())
    }
}

impl Error for Flaw {}
