// What a wheel says, and how it folds counts.
ghost use Rattle.std.specs.Prelude.{◌≡◌, ◌+◌, ◌<◌};
ghost use Rattle.scale.specs.Meaning.{Joins};
ghost use Rattle.scale.specs.WheelNumbers as offered;
ghost use Rattle.scale.specs.WheelOf as of;
ghost use Rattle.scale.specs.Wheels as wheel;

use super::{Wheel, WheelNumbers};
use crate::{Refusal, Scale};

impl Wheel {
    pub fn bound(self) -> u8
        ensures { result ≡ self.bound }
    {
        self.bound
    }

    pub fn period(self) -> u8
        ensures { result ≡ self.period }
    {
        self.period
    }

    pub fn pattern(self) -> u64
        ensures { result ≡ self.pattern }
    {
        self.pattern
    }
}

impl Scale for Wheel {
    type Numbers = WheelNumbers;

    ghost refusal = { offered.refusal };

    ghost given = { of.Given };

    ghost meant = { offered.says };

    ghost fresh = { of.fresh };

    ghost says = { of.says };

    ghost folded = { of.folded };

    ghost size = { of.size };

    ghost laws = { of.laws };

    fn new(numbers: WheelNumbers) -> Result<Wheel, Refusal> {
        let bound = u8::try_from(numbers.bound).or(Err(Refusal::Wheel))?;
        let period = u8::try_from(numbers.period).or(Err(Refusal::Wheel))?;
        let pattern = numbers.pattern;
        let size = u16::from(bound) + u16::from(period);
        if period == 0 || size > 64 {
            return Err(Refusal::Wheel);
        }
        if size < 64 && pattern >> size != 0 {
            return Err(Refusal::Pattern);
        }
        Ok(Wheel {
            bound,
            period,
            pattern,
        })
    }

    fn fresh() -> Wheel {
        Wheel {
            bound: 0,
            period: 1,
            pattern: 0,
        }
    }

    fn says(self, count: u64) -> bool {
        self.verdict(self.fold(count))
    }

    fn size(self) -> u16 {
        u16::from(self.bound) + u16::from(self.period)
    }

    fn fold(self, count: u64) -> u16 {
        let bound = u64::from(self.bound);
        let class = match count.checked_sub(bound) {
            Some(past) => bound + past % u64::from(self.period),
            None => count,
        };
        // A class is below 64: a checked conversion would have a case that never comes.
        class as u16
    }

    // The trait's body again, for one promise more: the class is the one that the worked examples
    // speak of.
    #[tactic(auto, using(crate::specs::WheelOf::laws))]
    fn join(self, a: u16, b: u16) -> u16
        ensures bound { result < of.size self }
        ensures value { result ≡ of.folded self (a + b) }
        ensures sum { Joins (of.folded self) a b result }
        ensures joined { result ≡ wheel.joined self.bound self.period a b }
    {
        self.fold(u64::from(a) + u64::from(b))
    }

    // The pattern's bit of the class.
    fn verdict(self, class: u16) -> bool {
        class < 64 && (self.pattern >> class) & 1 == 1
    }
}
