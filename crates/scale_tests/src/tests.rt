// What the tests of all sets share.
mod limits;
mod pairs;
mod plain_scale;
mod wheels;

use scale::{Refusal, WheelNumbers};
use std::process::Abort;
use std::test::Fail;

// The numbers of a wheel.
fn numbers(bound: u32, period: u32, pattern: u64) -> WheelNumbers {
    WheelNumbers {
        bound,
        period,
        pattern,
    }
}

// Something was refused, for this reason and by this number.
fn refused<T: Drop>(
    rt: &impl Abort,
    answer: Result<T, Refusal>,
    why: Refusal,
    code: u8,
) -> Result<(), Fail> {
    match answer {
        Ok(_) => Err(Fail::new("not refused")),
        Err(told) => {
            assert_eq!(rt; told, why);
            assert_eq!(rt; u8::from(told), code);
            Ok(())
        }
    }
}
