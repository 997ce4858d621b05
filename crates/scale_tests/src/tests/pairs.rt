// The paired set.
use super::numbers;
use scale::{LimitSet, Paired, ScaleSet, WheelSet};
use std::test::Fail;

#[test]
fn halves(rt: HostRuntime) -> Result<(), Fail> {
    let mut first = LimitSet::new();
    let mut second = WheelSet::new();
    first.set(0, 10)?;
    first.set(3, 13)?;
    first.set(4, 14)?;
    second.set(0, numbers(2, 3, 0b1_0000))?;
    second.set(3, numbers(20, 30, 0))?;
    second.set(7, numbers(21, 30, 0))?;
    let set = Paired { first, second };
    assert_eq!(rt; set.size(0), 12);
    assert_eq!(rt; set.size(3), 15);
    assert_eq!(rt; set.size(4), 5);
    assert_eq!(rt; set.size(7), 50);
    assert_eq!(rt; set.size(8), 50);
    assert_eq!(rt; set.size(255), 50);
    Ok(())
}

#[test]
fn questions(rt: HostRuntime) -> Result<(), Fail> {
    let mut set = Paired {
        first: LimitSet::new(),
        second: WheelSet::new(),
    };
    set.second.set(0, numbers(2, 3, 0b1_0000))?;
    assert_eq!(rt; set.zero(4), 0);
    assert_eq!(rt; set.one(4), 1);
    assert_eq!(rt; set.one(5), 0);
    assert_eq!(rt; set.one(0), 1);
    assert_eq!(rt; set.join(4, 4, 4), 2);
    assert_eq!(rt; set.join(0, 1, 1), 1);
    assert!(rt; set.verdict(4, 4));
    assert!(rt; !set.verdict(4, 1));
    assert!(rt; set.verdict(0, 1));
    Ok(())
}
