// Limits and the limit set.
use super::refused;
use scale::{Limit, LimitSet, Refusal, Scale, ScaleSet};
use std::test::Fail;

#[test]
fn edges(rt: HostRuntime) -> Result<(), Fail> {
    assert_eq!(rt; Limit::new(1000)?.size(), 1002);
    refused(&rt, Limit::new(1001), Refusal::Limit, 31)?;
    // 2 to the 16, and 5 more: nothing is cut off before it is looked at.
    refused(&rt, Limit::new(65541), Refusal::Limit, 31)?;
    assert_eq!(rt; Limit::fresh().number(), 0);
    Ok(())
}

#[test]
fn limit_of_two(rt: HostRuntime) -> Result<(), Fail> {
    let two = Limit::new(2)?;
    assert!(rt; !two.says(2));
    assert!(rt; two.says(3));
    assert_eq!(rt; two.size(), 4);
    assert_eq!(rt; two.fold(2), 2);
    assert_eq!(rt; two.fold(1_000_000), 3);
    assert_eq!(rt; two.join(1, 1), 2);
    assert_eq!(rt; two.join(3, 3), 3);
    assert!(rt; !two.verdict(2));
    assert!(rt; two.verdict(3));
    Ok(())
}

#[test]
fn scales_of_a_set(rt: HostRuntime) -> Result<(), Fail> {
    let mut set = LimitSet::new();
    set.set(7, 5)?;
    assert_eq!(rt; set.at(7).number(), 5);
    assert_eq!(rt; set.at(8).number(), 5);
    assert_eq!(rt; set.at(255).number(), 5);
    assert_eq!(rt; set.at(6).number(), 0);
    assert_eq!(rt; set.size(7), 7);
    assert_eq!(rt; set.size(8), 7);
    assert_eq!(rt; set.size(0), 2);
    Ok(())
}

#[test]
fn refused_settings(rt: HostRuntime) -> Result<(), Fail> {
    let mut set = LimitSet::new();
    refused(&rt, set.set(8, 5), Refusal::Scale, 17)?;
    refused(&rt, set.set(8, 1001), Refusal::Scale, 17)?;
    refused(&rt, set.set(7, 1001), Refusal::Limit, 31)?;
    assert_eq!(rt; set.at(7).number(), 0);
    Ok(())
}

#[test]
fn questions(rt: HostRuntime) -> Result<(), Fail> {
    let mut set = LimitSet::new();
    set.set(3, 2)?;
    assert_eq!(rt; set.zero(3), 0);
    assert_eq!(rt; set.one(3), 1);
    assert_eq!(rt; set.join(3, 1, 2), 3);
    assert!(rt; set.verdict(3, 3));
    assert!(rt; !set.verdict(3, 2));
    // A class that folds no count: some class below the size.
    assert!(rt; set.join(3, 65535, 65535) < 4);
    Ok(())
}
