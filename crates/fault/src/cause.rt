// The causes, their numbers and their layers.

ghost use Rattle.std.specs.Prelude.{◌≡◌, ℕ, ◌≤◌};
ghost use Rattle.fault.specs.Codes.{number_of, layer_of, letter_of, Apart};

// One for each rule by which an input is declined, in the order of their numbers; docs/REFUSALS.md has them in words.
#[derive(Clone, Copy, Debug, Eq, PartialEq)]
pub enum Cause {
    OfferCap = 1,
    RowCount,
    ClassLetter,
    BusNumber,
    UnitLimits,
    PointCount,
    CurveLevels,
    CurvePrices,
    Reading,
    LineCount,
    ShareRange,
    Absent,
    Amount,
    StepNumber,
    ListLength,
    PriceRange,
    UnobservedPrice,
    BasePoint,
    Balance,
    FlowLimit,
    GapTolerance,
    Contents,
    FolioLength,
    Padding,
    RecordCounts,
    NotHeld,
    ShortBuffer,
}

// The part of the library whose rule was broken.
#[derive(Clone, Copy, Debug, Eq, PartialEq)]
pub enum Layer {
    Book,
    Network,
    Run,
    Folio,
}

// A cause with its place: a row, line, participant or byte.
#[derive(Clone, Copy, Debug, Eq, PartialEq)]
pub struct Fault {
    pub cause: Cause,
    pub place: usize,
}

impl Cause {
    pub fn number(self) -> u8
        ensures value { result ≡ number_of self }
        ensures apart { Apart }
    {
        self as u8
    }

    pub fn layer(self) -> Layer
        ensures { result ≡ layer_of self }
    {
        match self {
            Cause::OfferCap
            | Cause::RowCount
            | Cause::ClassLetter
            | Cause::BusNumber
            | Cause::UnitLimits
            | Cause::PointCount
            | Cause::CurveLevels
            | Cause::CurvePrices
            | Cause::Reading => Layer::Book,
            Cause::LineCount | Cause::ShareRange => Layer::Network,
            Cause::Contents | Cause::FolioLength | Cause::Padding | Cause::RecordCounts => {
                Layer::Folio
            }
            _ => Layer::Run,
        }
    }
}

impl Layer {
    // The letter by which a refusal line names the layer.
    pub fn letter(self) -> u8
        ensures { result ≡ letter_of self }
    {
        match self {
            Layer::Book => b'B',
            Layer::Network => b'N',
            Layer::Run => b'R',
            Layer::Folio => b'F',
        }
    }
}
