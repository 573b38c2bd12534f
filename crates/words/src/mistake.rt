// What can be wrong with the form of a line.

ghost use Rattle.std.specs.Prelude.{◌≡◌, Some};
ghost use Rattle.words.specs.Reasons.{reason_of};

use std::error::Error;
use std::fmt;

#[derive(Clone, Copy, Debug, PartialEq, Eq)]
pub enum Mistake {
    UnknownWord,
    MissingWord,
    ExtraWord,
    NotANumber,
    NotALetter,
    NotAPoint,
    NotABlock,
    NotYesOrNo,
    TooManyPrices,
    NotAShare,
    BusRange,
    RepeatedBus,
    NoSlash,
    ManyBasePoints,
}

impl Mistake {
    // In a few words, for whoever wrote the line; without a formatter, which may fail.
    pub fn reason(&self) -> &'static str
        ensures { result.now ≡ reason_of self.now }
    {
        match self {
            Mistake::UnknownWord => "unknown word",
            Mistake::MissingWord => "missing word",
            Mistake::ExtraWord => "extra word",
            Mistake::NotANumber => "not a number",
            Mistake::NotALetter => "a class is one letter",
            Mistake::NotAPoint => "a point is level:price",
            Mistake::NotABlock => "a block is size:price",
            Mistake::NotYesOrNo => "neither yes nor no",
            Mistake::TooManyPrices => "more than 64 reference prices",
            Mistake::NotAShare => "a share is bus:share",
            Mistake::BusRange => "a bus is 0 to 63",
            Mistake::RepeatedBus => "a bus is named twice",
            Mistake::NoSlash => "no / before the base points",
            Mistake::ManyBasePoints => "over 64 base points",
        }
    }
}

impl fmt::Display for Mistake {
    ghost output = { λ mistake. Some (reason_of mistake) };

    fn fmt<W: fmt::Write>(&self, f: &mut fmt::Formatter<W>) -> fmt::Result {
        f.write_str(self.reason())
    }
}

impl Error for Mistake {}
