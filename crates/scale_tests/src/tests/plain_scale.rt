// The plain scale.
use super::{numbers, refused};
use scale::{Plain, Refusal};
use std::test::Fail;

#[test]
fn limit(rt: HostRuntime) -> Result<(), Fail> {
    let two = Plain::limit(2)?;
    assert!(rt; !two.says(2));
    assert!(rt; two.says(3));
    assert!(rt; !Plain::limit(1000)?.says(1000));
    refused(&rt, Plain::limit(1001), Refusal::Limit, 31)
}

#[test]
fn wheel(rt: HostRuntime) -> Result<(), Fail> {
    let odd = Plain::wheel(numbers(0, 2, 0b10))?;
    assert!(rt; odd.says(1));
    assert!(rt; !odd.says(2));
    assert!(rt; odd.says(1_000_001));
    refused(&rt, Plain::wheel(numbers(0, 0, 0)), Refusal::Wheel, 32)?;
    refused(&rt, Plain::wheel(numbers(1, 64, 0)), Refusal::Wheel, 32)?;
    refused(&rt, Plain::wheel(numbers(0, 2, 4)), Refusal::Pattern, 33)
}
