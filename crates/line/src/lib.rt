// The lines of a pump log, and the layered fault that every part above them tells.
#![tactic(auto)]

ghost use Rattle.std.specs.Prelude.{◌≡◌};
ghost use Rattle.line.specs.Marks.{unknown};

mod display;

// A line of a log: a time in seconds, and a set of marks. Bit i of `marks` stands for mark i.
// Marks 0 to 25 are known, and are written a to z.
#[derive(Clone, Copy, PartialEq, Eq, Debug)]
pub struct Line {
    pub time: u32,
    pub marks: u32,
}

impl Line {
    // How many marks are known.
    pub const KNOWN: u32 = 26;

    // Whether a mark is set that is not known.
    pub fn has_unknown(self) -> bool
        ensures { result ≡ unknown self.marks }
    {
        self.marks >= 1 << Self::KNOWN
    }
}

// What went wrong, and where: the layer that tells it, its service number, and a place.
// What a place counts is the layer's to say; for a feed it is bytes from 0. All three are plain
// numbers, since any feed may bring layers and numbers of its own.
#[derive(Clone, Copy, PartialEq, Eq, Debug)]
pub struct Fault {
    pub layer: u8,
    pub number: u8,
    pub place: u64,
}
