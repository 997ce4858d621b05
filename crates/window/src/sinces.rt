// The since pair.
ghost use Rattle.window.specs.Sinces as since;

use crate::{Summary, Truths};

// What the since pair tells of a list of lines.
#[derive(Clone, Copy, PartialEq, Eq, Debug)]
pub struct Since {
    // Every line has a.
    pub unbroken: bool,
    // Some line has b, and every line after it has a.
    pub held: bool,
}

// The kind of summary that tells whether a has held since b did.
#[derive(Clone, Copy)]
pub struct SincePair;

impl Summary for SincePair {
    type Value = Since;

    ghost value = { since.value };

    fn empty(&self) -> Since {
        Since {
            unbroken: true,
            held: false,
        }
    }

    // No line comes after the one, so a is not asked for.
    fn one(&self, line: Truths) -> Since {
        Since {
            unbroken: line.a,
            held: line.b,
        }
    }

    // `&` and `|` have no branch, so the proof has one path.
    fn join(&self, older: Since, newer: Since) -> Since {
        Since {
            unbroken: older.unbroken & newer.unbroken,
            held: newer.held | (older.held & newer.unbroken),
        }
    }
}
