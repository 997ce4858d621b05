// The plain scale.
ghost use Rattle.std.specs.Prelude.{◌≡◌, ℕ, IfOk, None};
ghost use Rattle.std.specs.Result.{result_err};
ghost use Rattle.scale.specs.Limits as limit;
ghost use Rattle.scale.specs.Plain as plain;
ghost use Rattle.scale.specs.WheelNumbers as wheel;

use crate::{Limit, Refusal, Scale, Wheel, WheelNumbers};

#[derive(Clone, Copy)]
enum Kind {
    Limit(Limit),
    Wheel(Wheel),
}

// A limit or a wheel, for those who count without folding. It is a rule of the project that a plain
// scale is a struct over its cases.
#[derive(Clone, Copy)]
pub struct Plain {
    kind: Kind,
}

// One constructor for each case: what the two share is Scale::new already.
impl Plain {
    pub fn limit(k: u32) -> Result<Plain, Refusal>
        ensures refused { result_err result ≡ limit.refusal k }
        ensures made { IfOk result (λ p. (n : ℕ) → plain.says p n ≡ limit.says k n) }
    {
        Ok(Plain {
            kind: Kind::Limit(Limit::new(k)?),
        })
    }

    pub fn wheel(numbers: WheelNumbers) -> Result<Plain, Refusal>
        ensures refused { result_err result ≡ wheel.refusal numbers }
        ensures made { IfOk result (λ p. (n : ℕ) → plain.says p n ≡ wheel.says numbers n) }
    {
        Ok(Plain {
            kind: Kind::Wheel(Wheel::new(numbers)?),
        })
    }

    // What the scale says to a count. There is no plain scale that would be refused.
    pub fn says(self, count: u64) -> bool
        ensures value { result ≡ plain.says self count }
        ensures lawful { plain.refusal self ≡ None }
    {
        match self.kind {
            Kind::Limit(limit) => limit.says(count),
            Kind::Wheel(wheel) => wheel.says(count),
        }
    }
}
