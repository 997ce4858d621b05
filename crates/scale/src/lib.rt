// Scales: what a count means, and how counts without bound are folded into few classes.
#![tactic(auto)]

ghost use Rattle.std.specs.Prelude.{◌≡◌, ℕ, ◌<◌, Bool};
ghost use Rattle.scale.specs.Meaning.{Joins, Judges, Laws};

pub mod answers;
mod limits;
mod pairs;
mod plain_scale;
mod scales;
mod tables;
mod wheels;

pub use answers::Refusal;
pub use limits::{Limit, LimitSet};
pub use pairs::Paired;
pub use plain_scale::Plain;
pub use scales::Scale;
pub use tables::Table;
pub use wheels::{Wheel, WheelNumbers, WheelSet};

// A scale set has the scales 0 to 7; in a question a higher number is read as 7. Each scale says
// yes or no to every count. It folds counts into classes, numbers below the scale's size, such that
// the class of a count tells what the scale says to it, and the classes of two counts tell that of
// their sum. No question is refused, and none changes the set.
pub trait ScaleSet {
    // What a scale says to a count.
    ghost meaning: { Self → ℕ → ℕ → Bool };

    // The class of a count on a scale.
    ghost folding: { Self → ℕ → ℕ → ℕ };

    // How many classes a scale has.
    ghost sizes: { Self → ℕ → ℕ };

    // What each set owes: 1 to 1,024 classes, every count's class below the size, and a scale
    // above 7 read as 7.
    ghost laws: { Laws meaning folding sizes };

    // How many classes the scale has.
    fn size(&self, scale: u8) -> u16
        ensures { result ≡ sizes self.now scale };

    // The class of the count 0.
    fn zero(&self, scale: u8) -> u16
        ensures { result ≡ folding self.now scale 0 };

    // The class of the count 1.
    fn one(&self, scale: u8) -> u16
        ensures { result ≡ folding self.now scale 1 };

    // The class of the sum of two counts, from their classes. Where a class folds no count, some
    // class below the size.
    fn join(&self, scale: u8, a: u16, b: u16) -> u16
        ensures bound { result < sizes self.now scale }
        ensures sum { Joins (folding self.now scale) a b result };

    // What the scale says to a count, from its class. Where the class folds no count, either.
    fn verdict(&self, scale: u8, class: u16) -> bool
        ensures { Judges (folding self.now scale) (meaning self.now scale) class result };
}
