// Where more than one reason applies, the one with the lower number is told.
use super::{line, told};
use std::test::Fail;

#[test]
fn unknown_mark_before_falling_time(rt: HostRuntime) -> Result<(), Fail> {
    let log = [line(5, 1), line(4, 1), line(6, 1 << 26)];
    assert_eq!(rt; told(rt.alloc(), &log, 0, 1)?, Err(41));
    Ok(())
}

#[test]
fn falling_time_before_no_formula(rt: HostRuntime) -> Result<(), Fail> {
    let log = [line(5, 1), line(4, 1)];
    assert_eq!(rt; told(rt.alloc(), &log, 1, 0)?, Err(42));
    Ok(())
}

#[test]
fn no_formula_before_no_place(rt: HostRuntime) -> Result<(), Fail> {
    let log = [line(5, 1), line(5, 0)];
    assert_eq!(rt; told(rt.alloc(), &log, 1, 0)?, Err(62));
    assert_eq!(rt; told(rt.alloc(), &log, 1, 3)?, Err(62));
    Ok(())
}

#[test]
fn places_of_the_log(rt: HostRuntime) -> Result<(), Fail> {
    let log = [line(5, 1), line(5, 0)];
    assert_eq!(rt; told(rt.alloc(), &log, 0, 0)?, Err(63));
    assert_eq!(rt; told(rt.alloc(), &log, 0, 1)?, Ok(true));
    assert_eq!(rt; told(rt.alloc(), &log, 0, 2)?, Ok(false));
    assert_eq!(rt; told(rt.alloc(), &log, 0, 3)?, Err(63));
    Ok(())
}
