// What a limit says, and how it folds counts.
ghost use Rattle.std.specs.Prelude.{◌≡◌};
ghost use Rattle.scale.specs.LimitOf as of;
ghost use Rattle.scale.specs.Limits as limit;

use super::Limit;
use crate::{Refusal, Scale};

impl Limit {
    pub fn number(self) -> u16
        ensures { result ≡ self.k }
    {
        self.k
    }
}

impl Scale for Limit {
    type Numbers = u32;

    ghost refusal = { limit.refusal };

    ghost given = { of.Given };

    ghost meant = { limit.says };

    ghost fresh = { of.fresh };

    ghost says = { of.says };

    ghost folded = { of.folded };

    ghost size = { of.size };

    ghost laws = { of.laws };

    fn new(k: u32) -> Result<Limit, Refusal> {
        match u16::try_from(k) {
            Ok(k) if k <= 1000 => Ok(Limit { k }),
            _ => Err(Refusal::Limit),
        }
    }

    fn fresh() -> Limit {
        Limit { k: 0 }
    }

    fn says(self, count: u64) -> bool {
        count > u64::from(self.number())
    }

    fn size(self) -> u16 {
        self.number() + 2
    }

    // Counts above the limit k share the class k + 1.
    fn fold(self, count: u64) -> u16 {
        // A class is at most 1,001: a checked conversion would have a case that never comes.
        count.min(u64::from(self.number()) + 1) as u16
    }

    fn verdict(self, class: u16) -> bool {
        self.says(u64::from(class))
    }
}
