// The resetting count.
ghost use Rattle.window.specs.Counts as count;

use crate::{Summary, Truths};
use scale::ScaleSet;

// What a resetting count tells of a list of lines.
#[derive(Clone, Copy, PartialEq, Eq, Debug)]
pub struct Tally {
    // Some line has a.
    pub reset: bool,
    // The class of how many lines have b, after the last line that has a.
    pub class: u16,
}

// The kind of summary that counts the lines with b and begins anew after each line with a. The
// count itself is never known: it is kept as its class on a scale.
#[derive(Clone, Copy)]
pub struct ResettingCount<'a, S> {
    pub set: &'a S,
    pub scale: u8,
}

impl<'a, S: ScaleSet> Summary for ResettingCount<'a, S> {
    type Value = Tally;

    ghost value = { count.value S.ScaleSet.folding };

    fn empty(&self) -> Tally {
        Tally {
            reset: false,
            class: self.set.zero(self.scale),
        }
    }

    // A line with a is not after itself, so its b is not counted.
    fn one(&self, line: Truths) -> Tally {
        Tally {
            reset: line.a,
            class: if line.b && !line.a {
                self.set.one(self.scale)
            } else {
                self.set.zero(self.scale)
            },
        }
    }

    fn join(&self, older: Tally, newer: Tally) -> Tally {
        if newer.reset {
            newer
        } else {
            Tally {
                reset: older.reset,
                class: self.set.join(self.scale, older.class, newer.class),
            }
        }
    }
}
