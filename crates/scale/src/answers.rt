// Why a scale is refused.
ghost use Rattle.std.specs.Prelude.{◌≡◌};
ghost use Rattle.scale.specs.Codes.{number};

// Each case stands for its service number.
#[derive(Clone, Copy, PartialEq, Eq, Debug)]
pub enum Refusal {
    // A setting of a scale above 7.
    Scale = 17,
    // A limit above 1,000.
    Limit = 31,
    // A wheel without a period, or with more than 64 classes.
    Wheel = 32,
    // A pattern with a bit for a class that the wheel lacks.
    Pattern = 33,
}

// Written out: no impl may come from a macro of our own.
impl From<Refusal> for u8 {
    ghost from_gives = { λ refusal code. code ≡ number refusal };

    fn from(refusal: Refusal) -> u8 {
        refusal as u8
    }
}
