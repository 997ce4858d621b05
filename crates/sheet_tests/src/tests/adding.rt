// What a sheet takes.
use super::{bench, fields, third};
use sheet::{Refusal, Sheet};
use std::test::Fail;

#[test]
fn bench_costs_and_reaches(rt: HostRuntime) -> Result<(), Fail> {
    let sheet = bench(rt.alloc())?;
    assert_eq!(rt; sheet.cells(), 30);
    assert_eq!(rt; sheet.rule_reach(0), Some(9));
    assert_eq!(rt; sheet.rule_reach(1), Some(19));
    assert_eq!(rt; sheet.rule_reach(2), None);
    assert_eq!(rt; sheet.reach(5), Some(0));
    assert_eq!(rt; sheet.reach(7), None);
    Ok(())
}

#[test]
fn kinds_and_marks(rt: HostRuntime) -> Result<(), Fail> {
    assert_eq!(rt; third(rt.alloc(), fields(7, 0, 0, 0, 0, 0))?, Err(12));
    assert_eq!(rt; third(rt.alloc(), fields(6, 0, 1, 0, 0, 1))?, Ok(()));
    assert_eq!(rt; third(rt.alloc(), fields(0, 1, 0, 0, 0, 0))?, Err(13));
    assert_eq!(rt; third(rt.alloc(), fields(1, 0, 1, 0, 0, 0))?, Err(13));
    assert_eq!(rt; third(rt.alloc(), fields(3, 0, 0, 1, 0, 0))?, Err(13));
    assert_eq!(rt; third(rt.alloc(), fields(3, 0, 0, 0, 0, 1))?, Err(13));
    assert_eq!(rt; third(rt.alloc(), fields(4, 0, 0, 1, 0, 1))?, Err(13));
    assert_eq!(rt; third(rt.alloc(), fields(1, 26, 0, 0, 0, 0))?, Err(14));
    assert_eq!(rt; third(rt.alloc(), fields(2, 1, 0, 0, 0, 0))?, Ok(()));
    assert_eq!(rt; third(rt.alloc(), fields(2, 2, 0, 0, 0, 0))?, Err(15));
    assert_eq!(rt; third(rt.alloc(), fields(3, 0, 2, 0, 0, 0))?, Err(15));
    Ok(())
}

#[test]
fn windows_and_scales(rt: HostRuntime) -> Result<(), Fail> {
    assert_eq!(rt; third(rt.alloc(), fields(5, 0, 0, 0, 0, 0))?, Err(16));
    assert_eq!(rt; third(rt.alloc(), fields(5, 0, 0, 0, 5, 5))?, Err(16));
    assert_eq!(rt;
        third(rt.alloc(), fields(5, 0, 0, 0, 3_999, 4_000))?,
        Ok(())
    );
    assert_eq!(rt; third(rt.alloc(), fields(5, 0, 0, 0, 0, 4_001))?, Err(16));
    assert_eq!(rt;
        third(rt.alloc(), fields(5, 0, 0, 0, 4_000, 65_535))?,
        Ok(())
    );
    assert_eq!(rt;
        third(rt.alloc(), fields(5, 0, 0, 0, 4_001, 65_535))?,
        Err(16)
    );
    assert_eq!(rt; third(rt.alloc(), fields(5, 0, 0, 0, 0, 65_534))?, Err(16));
    assert_eq!(rt; third(rt.alloc(), fields(6, 0, 0, 7, 0, 1))?, Ok(()));
    assert_eq!(rt; third(rt.alloc(), fields(6, 0, 0, 8, 0, 1))?, Err(17));
    Ok(())
}

// Where two reasons apply, the one with the lower number is told.
#[test]
fn the_first_reason(rt: HostRuntime) -> Result<(), Fail> {
    assert_eq!(rt; third(rt.alloc(), fields(7, 9, 9, 9, 9, 9))?, Err(12));
    assert_eq!(rt; third(rt.alloc(), fields(1, 26, 1, 0, 0, 0))?, Err(13));
    assert_eq!(rt; third(rt.alloc(), fields(2, 2, 1, 0, 0, 0))?, Err(13));
    assert_eq!(rt; third(rt.alloc(), fields(5, 2, 0, 0, 5, 5))?, Err(15));
    assert_eq!(rt; third(rt.alloc(), fields(6, 0, 0, 8, 5, 5))?, Err(16));
    Ok(())
}

// What a sheet whose two windows cost 8,000 cells says to a third that costs `high`.
fn third_window(heap: std::alloc::Global, high: u16) -> Result<Result<(), Refusal>, Fail> {
    let mut sheet = Sheet::new(heap)?;
    sheet.add(fields(0, 0, 0, 0, 0, 0))?;
    sheet.add(fields(5, 0, 0, 0, 0, 4_000))?;
    sheet.add(fields(6, 0, 0, 0, 0, 4_000))?;
    Ok(sheet.add(fields(5, 0, 0, 0, 0, high)))
}

#[test]
fn cells(rt: HostRuntime) -> Result<(), Fail> {
    assert_eq!(rt; third_window(rt.alloc(), 192)?, Ok(()));
    assert_eq!(rt; third_window(rt.alloc(), 193)?, Err(Refusal::Cells));
    let mut sheet = Sheet::new(rt.alloc())?;
    sheet.add(fields(0, 0, 0, 0, 0, 0))?;
    sheet.add(fields(4, 0, 0, 0, 4_000, 65_535))?;
    assert_eq!(rt; sheet.cells(), 1);
    assert_eq!(rt; sheet.reach(1), None);
    sheet.add(fields(5, 0, 0, 0, 7, 65_535))?;
    assert_eq!(rt; sheet.cells(), 9);
    Ok(())
}

#[test]
fn full(rt: HostRuntime) -> Result<(), Fail> {
    let mut sheet = Sheet::new(rt.alloc())?;
    assert_eq!(rt; sheet.add_rule(0), Err(Refusal::Forward));
    for _ in 0..64 {
        sheet.add(fields(0, 0, 0, 0, 0, 0))?;
    }
    assert_eq!(rt; sheet.add(fields(0, 0, 0, 0, 0, 0)), Err(Refusal::Full));
    assert_eq!(rt; sheet.add(fields(9, 0, 0, 0, 0, 0)), Err(Refusal::Full));
    assert_eq!(rt; sheet.add_rule(64), Err(Refusal::Forward));
    for _ in 0..8 {
        sheet.add_rule(63)?;
    }
    assert_eq!(rt; sheet.add_rule(63), Err(Refusal::Full));
    assert_eq!(rt; sheet.add_rule(64), Err(Refusal::Full));
    assert_eq!(rt; sheet.formulas().len(), 64);
    assert_eq!(rt; sheet.rules().len(), 8);
    Ok(())
}
