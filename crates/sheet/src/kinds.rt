// The kinds of formulas, and which raw fields each uses.
ghost use Rattle.std.specs.Prelude.{◌≡◌};
ghost use Rattle.sheet.specs.Fields.{kind_number, KindRead};
ghost use Rattle.sheet.specs.Formulas.{used};

use crate::answers::Refusal;

// Each kind stands for its number in raw fields.
#[derive(Clone, Copy, PartialEq, Eq, Debug)]
pub enum Kind {
    Never = 0,
    Mark = 1,
    Not = 2,
    Or = 3,
    Previous = 4,
    Since = 5,
    Count = 6,
}

impl TryFrom<u8> for Kind {
    type Error = Refusal;

    ghost try_from_gives = { KindRead };

    fn try_from(number: u8) -> Result<Kind, Refusal> {
        match number {
            0 => Ok(Kind::Never),
            1 => Ok(Kind::Mark),
            2 => Ok(Kind::Not),
            3 => Ok(Kind::Or),
            4 => Ok(Kind::Previous),
            5 => Ok(Kind::Since),
            6 => Ok(Kind::Count),
            _ => Err(Refusal::Kind),
        }
    }
}

// Written out: no impl may come from a macro of our own.
impl From<Kind> for u8 {
    ghost from_gives = { λ kind n. n ≡ kind_number kind };

    fn from(kind: Kind) -> u8 {
        kind as u8
    }
}

// Which fields a kind of formula uses. `low` and `high` go together, as its window.
#[derive(Clone, Copy)]
pub struct Used {
    pub a: bool,
    pub b: bool,
    pub scale: bool,
    pub window: bool,
}

impl Kind {
    pub fn used(self) -> Used
        ensures { result ≡ used (kind_number self) }
    {
        Used {
            a: self != Kind::Never,
            b: matches!(self, Kind::Or | Kind::Since | Kind::Count),
            scale: self == Kind::Count,
            window: matches!(self, Kind::Previous | Kind::Since | Kind::Count),
        }
    }
}
