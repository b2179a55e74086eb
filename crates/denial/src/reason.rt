// Why a call is denied, each reason with the number that the outside sees.
ghost use Rattle.std.specs.Prelude.{◌≡◌};
ghost use Rattle.denial.specs.Numbers.{number};

#[derive(Clone, Copy, PartialEq, Eq, Debug)]
pub enum Reason {
    // a shape
    FanoutRange = 11,
    HeightRange = 12,
    TooManyNodes = 13,
    SliceTooShort = 14,
    // bytes that are read
    TableTooShort = 21,
    WrongMark = 22,
    WrongVersion = 23,
    WrongKind = 24,
    WrongShape = 25,
    WrongLength = 26,
    LoadedBeyondLimit = 27,
    WrongDenominator = 28,
    // a tree sheet
    Unlaid = 30,
    NoSuchNode = 31,
    EnteredBeyondLimit = 32,
    SomeNodeEmpty = 33,
    NotReleased = 34,
    NodeEmpty = 35,
    // a run sheet
    ValueRange = 41,
    WeightRange = 42,
    RunFull = 43,
    NoItems = 45,
    // what is written
    BufferTooShort = 51,
    ZeroDenominator = 53,
    // cells
    BeyondCarryLimit = 61,
    NoSuchComponent = 62,
}

impl Reason {
    pub fn number(self) -> u8
        ensures { result ≡ number self }
    {
        self as u8
    }
}
