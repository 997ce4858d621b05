// The raw fields that callers and bytes bring for a formula.
ghost use Rattle.std.specs.Prelude.{◌≡◌};
ghost use Rattle.sheet.specs.Bytes.{field_bytes, fields_in};
ghost use Rattle.sheet.specs.Formulas.{fields_of};
ghost use Rattle.sheet.specs.Fields as fields;

use crate::formulas::Formula;
use crate::kinds::Kind;
use crate::windows::Window;

// A formula as it is offered: which fields count depends on the kind, and the others are 0. The
// kind is a plain number, as callers and bytes bring it.
#[derive(Clone, Copy, PartialEq, Eq, Debug)]
pub struct Fields {
    pub kind: u8,
    pub a: u8,
    pub b: u8,
    pub scale: u8,
    pub low: u16,
    pub high: u16,
}

// Eight bytes hold the fields in order, low and high with the higher byte first.
impl From<[u8; 8]> for Fields {
    ghost from_gives = { λ bytes f. f ≡ fields_in bytes };

    fn from(bytes: [u8; 8]) -> Fields {
        let [kind, a, b, scale, l0, l1, h0, h1] = bytes;
        Fields {
            kind,
            a,
            b,
            scale,
            low: u16::from_be_bytes([l0, l1]),
            high: u16::from_be_bytes([h0, h1]),
        }
    }
}

impl From<Fields> for [u8; 8] {
    ghost from_gives = { λ f bytes. bytes ≡ field_bytes f };

    fn from(f: Fields) -> [u8; 8] {
        let [l0, l1] = f.low.to_be_bytes();
        let [h0, h1] = f.high.to_be_bytes();
        [f.kind, f.a, f.b, f.scale, l0, l1, h0, h1]
    }
}

// The raw fields that a formula was made of.
impl From<Formula> for Fields {
    ghost from_gives = { λ formula f. f ≡ fields_of formula };

    fn from(formula: Formula) -> Fields {
        match formula {
            Formula::Never => raw(Kind::Never, 0, 0, 0),
            Formula::Mark { mark } => raw(Kind::Mark, mark, 0, 0),
            Formula::Not { a } => raw(Kind::Not, a, 0, 0),
            Formula::Or { a, b } => raw(Kind::Or, a, b, 0),
            Formula::Previous { a, window } => within(raw(Kind::Previous, a, 0, 0), window),
            Formula::Since { a, b, window } => within(raw(Kind::Since, a, b, 0), window),
            Formula::Count {
                a,
                b,
                scale,
                window,
            } => within(raw(Kind::Count, a, b, scale), window),
        }
    }
}

fn raw(kind: Kind, a: u8, b: u8, scale: u8) -> Fields
    ensures { result ≡ fields.raw (fields.kind_number kind) a b scale }
{
    Fields {
        kind: u8::from(kind),
        a,
        b,
        scale,
        low: 0,
        high: 0,
    }
}

fn within(f: Fields, window: Window) -> Fields
    ensures { result ≡ fields.within f window }
{
    Fields {
        low: window.low(),
        high: window.high(),
        ..f
    }
}
