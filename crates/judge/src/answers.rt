// What the judge refuses.
ghost use Rattle.std.specs.Prelude.{◌≡◌};
ghost use Rattle.judge.specs.Codes.{number};

// Each case stands for its service number.
#[derive(Clone, Copy, PartialEq, Eq, Debug)]
pub enum Refusal {
    // A line of the log has a mark that is not known.
    Unknown = 41,
    // A time is before that of the line before it.
    Backward = 42,
    // The log is too long to be held.
    Long = 61,
    // There is no such formula on the sheet.
    NoFormula = 62,
    // There is no such place in the log.
    NoPlace = 63,
}

// Written out: no impl may come from a macro of our own.
impl From<Refusal> for u8 {
    ghost from_gives = { λ refusal code. code ≡ number refusal };

    fn from(refusal: Refusal) -> u8 {
        refusal as u8
    }
}
