// One scale by itself.
ghost use Rattle.std.specs.Prelude.{◌≡◌, ℕ, ◌+◌, ◌<◌, Bool, Option, IfOk};
ghost use Rattle.std.specs.Result.{result_err};
ghost use Rattle.scale.specs.declared.answers.Refusal.{Refusal};
ghost use Rattle.scale.specs.Meaning.{Joins, Judges};
ghost use Rattle.scale.specs.Scales.{Laws};

use crate::Refusal;

// A scale is made of numbers, which may be refused. It says yes or no to every count, and folds
// counts into classes.
pub trait Scale: Copy {
    // The numbers of a scale as they are offered.
    type Numbers: Copy;

    // Why numbers make no scale.
    ghost refusal: { Self.Numbers → Option Refusal };

    // The scale has the numbers.
    ghost given: { Self.Numbers → Self → Type 0 };

    // What a scale of the numbers says to a count.
    ghost meant: { Self.Numbers → ℕ → Bool };

    // The scale that a new set has at each number.
    ghost fresh: { Self };

    // What a scale says to a count.
    ghost says: { Self → ℕ → Bool };

    // The class of a count.
    ghost folded: { Self → ℕ → ℕ };

    // How many classes a scale has.
    ghost size: { Self → ℕ };

    // What each scale owes: every count's class is below the size, the size is at most 1,024, the
    // classes of two counts give that of their sum, and a scale says what its numbers mean.
    ghost laws: { Laws given meant says folded size };

    fn new(numbers: Self::Numbers) -> Result<Self, Refusal>
        ensures refused { result_err result ≡ refusal numbers }
        ensures made { IfOk result (given numbers) };

    // The scale that a new set has at each number. Not Default, which promises a fact about the
    // value: the definitions start from the value itself.
    fn fresh() -> Self
        ensures { result ≡ fresh };

    // What the scale says to a count.
    fn says(self, count: u64) -> bool
        ensures { result ≡ says self count };

    fn size(self) -> u16
        ensures { result ≡ size self };

    // The class of a count.
    fn fold(self, count: u64) -> u16
        ensures { result ≡ folded self count };

    // The class of the sum of two counts, from their classes.
    fn join(self, a: u16, b: u16) -> u16
        ensures bound { result < size self }
        ensures value { result ≡ folded self (a + b) }
        ensures sum { Joins (folded self) a b result }
    {
        self.fold(u64::from(a) + u64::from(b))
    }

    // What the scale says to a count, from its class.
    fn verdict(self, class: u16) -> bool
        ensures { Judges (folded self) (says self) class result };
}
