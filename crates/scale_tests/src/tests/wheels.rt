// Wheels and the wheel set.
use super::{numbers, refused};
use scale::{Refusal, Scale, ScaleSet, Wheel, WheelSet};
use std::test::Fail;

#[test]
fn sizes(rt: HostRuntime) -> Result<(), Fail> {
    assert_eq!(rt; Wheel::new(numbers(0, 64, u64::MAX))?.size(), 64);
    assert_eq!(rt; Wheel::new(numbers(63, 1, u64::MAX))?.size(), 64);
    refused(&rt, Wheel::new(numbers(64, 1, 0)), Refusal::Wheel, 32)?;
    refused(&rt, Wheel::new(numbers(1, 64, 0)), Refusal::Wheel, 32)?;
    refused(&rt, Wheel::new(numbers(0, 0, 0)), Refusal::Wheel, 32)?;
    // Both numbers are as large as they get, and their sum is not cut off.
    refused(
        &rt,
        Wheel::new(numbers(u32::MAX, u32::MAX, 0)),
        Refusal::Wheel,
        32,
    )?;
    refused(&rt, Wheel::new(numbers(256, 1, 0)), Refusal::Wheel, 32)
}

#[test]
fn patterns(rt: HostRuntime) -> Result<(), Fail> {
    assert_eq!(rt; Wheel::new(numbers(2, 3, 0b1_1111))?.pattern(), 31);
    refused(
        &rt,
        Wheel::new(numbers(2, 3, 0b10_0000)),
        Refusal::Pattern,
        33,
    )?;
    refused(
        &rt,
        Wheel::new(numbers(62, 1, 1 << 63)),
        Refusal::Pattern,
        33,
    )?;
    // No period is told before the pattern.
    refused(&rt, Wheel::new(numbers(2, 0, u64::MAX)), Refusal::Wheel, 32)
}

#[test]
fn classes(rt: HostRuntime) -> Result<(), Fail> {
    let wheel = Wheel::new(numbers(2, 3, 0))?;
    assert_eq!(rt; wheel.fold(0), 0);
    assert_eq!(rt; wheel.fold(1), 1);
    assert_eq!(rt; wheel.fold(2), 2);
    assert_eq!(rt; wheel.fold(3), 3);
    assert_eq!(rt; wheel.fold(4), 4);
    assert_eq!(rt; wheel.fold(5), 2);
    assert_eq!(rt; wheel.fold(6), 3);
    assert_eq!(rt; wheel.fold(7), 4);
    assert_eq!(rt; wheel.join(4, 4), 2);
    Ok(())
}

#[test]
fn answers(rt: HostRuntime) -> Result<(), Fail> {
    // Yes to 1, and to 3, 6, 9 and so on.
    let wheel = Wheel::new(numbers(2, 3, 0b0_1010))?;
    assert!(rt; !wheel.says(0));
    assert!(rt; wheel.says(1));
    assert!(rt; !wheel.says(4));
    assert!(rt; wheel.says(6));
    assert!(rt; !wheel.says(7));
    assert!(rt; wheel.says(3_000_000_000));
    assert_eq!(rt; Wheel::fresh().size(), 1);
    assert!(rt; !Wheel::fresh().says(1));
    Ok(())
}

#[test]
fn last_class(rt: HostRuntime) -> Result<(), Fail> {
    let wheel = Wheel::new(numbers(63, 1, 1 << 63))?;
    assert!(rt; !wheel.says(62));
    assert!(rt; wheel.says(63));
    assert!(rt; wheel.says(u64::MAX));
    assert!(rt; wheel.verdict(wheel.join(63, 63)));
    Ok(())
}

#[test]
fn scales_of_a_set(rt: HostRuntime) -> Result<(), Fail> {
    let mut set = WheelSet::new();
    set.set(7, numbers(2, 3, 0b1_0000))?;
    assert_eq!(rt; set.size(7), 5);
    assert_eq!(rt; set.size(8), 5);
    assert_eq!(rt; set.size(6), 1);
    assert_eq!(rt; set.zero(8), 0);
    assert_eq!(rt; set.one(8), 1);
    assert_eq!(rt; set.one(6), 0);
    assert_eq!(rt; set.join(8, 4, 4), 2);
    assert!(rt; set.verdict(8, 4));
    assert!(rt; !set.verdict(8, 2));
    Ok(())
}

#[test]
fn refused_settings(rt: HostRuntime) -> Result<(), Fail> {
    let mut set = WheelSet::new();
    refused(&rt, set.set(8, numbers(2, 3, 0)), Refusal::Scale, 17)?;
    refused(&rt, set.set(8, numbers(2, 0, u64::MAX)), Refusal::Scale, 17)?;
    refused(&rt, set.set(7, numbers(2, 0, 0)), Refusal::Wheel, 32)?;
    refused(&rt, set.set(7, numbers(2, 3, 32)), Refusal::Pattern, 33)?;
    assert_eq!(rt; set.size(7), 1);
    Ok(())
}
