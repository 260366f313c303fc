// The six kinds of action, each with its number in a record.
ghost use Rattle.std.specs.Prelude.{◌≡◌, not, ◌||◌, eqb};
ghost use Rattle.figure.specs.Kind.{code_of, KindOf};

use crate::Refused;

#[derive(Clone, Copy, Debug, PartialEq, Eq)]
pub enum Kind {
    Read = 1,
    Write = 2,
    Publish = 3,
    Refresh = 4,
    Update = 5,
    Forget = 6,
}

impl Kind {
    pub fn code(self) -> u8
        ensures { result ≡ code_of self }
    {
        self as u8
    }

    // An action of this kind names an address; it has data. The rules hold the other fields at 0.
    pub fn uses_address(self) -> bool
        ensures { result ≡ not (eqb (code_of self) 3 || eqb (code_of self) 5) }
    {
        match self {
            Kind::Read | Kind::Write | Kind::Refresh | Kind::Forget => true,
            Kind::Publish | Kind::Update => false,
        }
    }

    pub fn uses_data(self) -> bool
        ensures { result ≡ eqb (code_of self) 2 }
    {
        self == Kind::Write
    }
}

impl TryFrom<u8> for Kind {
    type Error = Refused;

    ghost try_from_gives = { KindOf };

    fn try_from(code: u8) -> Result<Kind, Refused> {
        match code {
            1 => Ok(Kind::Read),
            2 => Ok(Kind::Write),
            3 => Ok(Kind::Publish),
            4 => Ok(Kind::Refresh),
            5 => Ok(Kind::Update),
            6 => Ok(Kind::Forget),
            _ => Err(Refused::Kind),
        }
    }
}
