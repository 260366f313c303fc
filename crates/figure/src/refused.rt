// What comes back when it is no: one case for each number of the rules.
ghost use Rattle.std.specs.Prelude.{◌≡◌, ◌++◌, Some, codes};
ghost use Rattle.std.specs.Fmt.{decimal};
ghost use Rattle.figure.specs.Refused.{number_of};

use std::error::Error;
use std::fmt;

// A number that is gone is never used again.
#[derive(Clone, Copy, Debug, PartialEq, Eq)]
pub enum Refused {
    TooShort = 1,
    LengthField = 2,
    Version = 3,
    Engines = 4,
    Addresses = 5,
    Depth = 6,
    MemoryCut = 7,
    ActionCut = 8,
    TooManyActions = 9,
    TableLength = 10,
    Kind = 11,
    Engine = 12,
    Address = 13,
    UnusedField = 14,
    Unsound = 17,
    OutWaiting = 21,
    OwnWaiting = 22,
    NotCached = 23,
    OutFull = 24,
    OutEmpty = 25,
    SomeInFull = 26,
    InFull = 27,
    InEmpty = 28,
    TraceShort = 29,
    OutputShort = 30,
}

impl Refused {
    pub fn number(self) -> u8
        ensures { result ≡ number_of self }
    {
        self as u8
    }
}

impl fmt::Display for Refused {
    ghost output = { λ r. Some (codes "refused " ++ decimal (number_of r)) };

    fn fmt<W: fmt::Write>(&self, f: &mut fmt::Formatter<W>) -> fmt::Result {
        write!(f, "refused {}", self.number())
    }
}

impl Error for Refused {}
