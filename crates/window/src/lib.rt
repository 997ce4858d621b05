// Windows: summaries of the lines whose age lies in a window, as the log goes by and is not kept.
// So far there are the summaries, and the queue in which they wait.
#![tactic(auto)]

ghost use Rattle.std.specs.Prelude.{◌≡◌, List, [], ◌∷◌};
ghost use Rattle.window.specs.declared.Truths.{Truths};
ghost use Rattle.window.specs.Summaries.{Joins};

mod cells;
mod counts;
mod queue;
mod sinces;

pub use cells::Cell;
pub use counts::{ResettingCount, Tally};
pub use queue::Queue;
pub use sinces::{Since, SincePair};

// Whether two formulas a and b hold at a line. It is all that a summary asks of a line.
#[derive(Clone, Copy, PartialEq, Eq, Debug)]
pub struct Truths {
    pub a: bool,
    pub b: bool,
}

// A kind of summary. It has a value for each list of lines, the oldest first. The value of a list
// is put together from those of its parts, so the lines themselves need not be kept.
pub trait Summary {
    type Value: Copy;

    // The value of a list.
    ghost value: { Self → List Truths → Self.Value };

    // The value of no lines.
    fn empty(&self) -> Self::Value
        ensures { result ≡ value self.now [] };

    // The value of one line.
    fn one(&self, line: Truths) -> Self::Value
        ensures { result ≡ value self.now (line ∷ []) };

    // The value of one list followed by another, from their values. Where no list has the values,
    // any value.
    fn join(&self, older: Self::Value, newer: Self::Value) -> Self::Value
        ensures { Joins (value self.now) older newer result };
}
