// What a feed tells.
ghost use Rattle.std.specs.Prelude.{◌≡◌};
ghost use Rattle.feed.specs.Codes.{number};

use line::{Fault, Line};

// How a feed ends. No Result: an ending that is still open is to come.
#[derive(Clone, Copy, PartialEq, Eq, Debug)]
pub enum Ending {
    Clean,
    Fault(Fault),
}

// What a feed answers when it is asked for its next line. No Option or Result: a pause between
// lines is to come.
#[derive(Clone, Copy, PartialEq, Eq, Debug)]
pub enum Next {
    Line(Line),
    Ended(Ending),
}

// What is wrong with the bytes of a log. Each case stands for its service number.
#[derive(Clone, Copy, PartialEq, Eq, Debug)]
pub enum Cause {
    // A packed log ends inside a line.
    Torn = 51,
    // A byte that is wrong before the space or in its place.
    Time = 52,
    // A byte that is wrong behind the space.
    Marks = 53,
    // A text log ends inside a line.
    Cut = 54,
}

// Written out: no impl may come from a macro of our own.
impl From<Cause> for u8 {
    ghost from_gives = { λ cause code. code ≡ number cause };

    fn from(cause: Cause) -> u8 {
        cause as u8
    }
}
