// What a sheet tells.
ghost use Rattle.std.specs.Prelude.{◌≡◌};
ghost use Rattle.sheet.specs.Codes.{number, read_fault, short_number};

use line::Fault;

// Why a formula or a rule is not taken. Each case stands for its service number.
#[derive(Clone, Copy, PartialEq, Eq, Debug)]
pub enum Refusal {
    // The sheet has no place for it.
    Full = 11,
    // No such kind of formula.
    Kind = 12,
    // A field that the kind does not use is not 0.
    Spare = 13,
    // No such known mark.
    Mark = 14,
    // It names a formula that is not there yet.
    Forward = 15,
    // Low and high are no window.
    Window = 16,
    // No such scale.
    Scale = 17,
    // The sheet would cost too many cells.
    Cells = 18,
}

// Written out: no impl may come from a macro of our own.
impl From<Refusal> for u8 {
    ghost from_gives = { λ refusal code. code ≡ number refusal };

    fn from(refusal: Refusal) -> u8 {
        refusal as u8
    }
}

// Why bytes are not read as a sheet.
#[derive(Clone, Copy, PartialEq, Eq, Debug)]
pub enum ReadRefusal {
    // They are too few, or not as many as the trailer says.
    Length,
    // The trailer has the rules begin at another place than behind the formulas.
    Trailer,
    // The item at this place is refused; rules count on after formulas.
    Item { place: u16, refusal: Refusal },
}

// Layer 1 tells of the bytes, layer 2 of an item. An item carries its place, so these cases cannot
// stand for their numbers.
impl From<ReadRefusal> for Fault {
    ghost from_gives = { λ refusal fault. fault ≡ read_fault refusal };

    fn from(refusal: ReadRefusal) -> Fault {
        match refusal {
            ReadRefusal::Length => Fault {
                layer: 1,
                number: 21,
                place: 0,
            },
            ReadRefusal::Trailer => Fault {
                layer: 1,
                number: 22,
                place: 0,
            },
            ReadRefusal::Item { place, refusal } => Fault {
                layer: 2,
                number: u8::from(refusal),
                place: u64::from(place),
            },
        }
    }
}

// Why a sheet is not written. Each case stands for its service number.
#[derive(Clone, Copy, PartialEq, Eq, Debug)]
pub enum WriteRefusal {
    // The buffer is too short for it.
    Short = 23,
}

// Written out: no impl may come from a macro of our own.
impl From<WriteRefusal> for u8 {
    ghost from_gives = { λ refusal code. code ≡ short_number refusal };

    fn from(refusal: WriteRefusal) -> u8 {
        refusal as u8
    }
}
