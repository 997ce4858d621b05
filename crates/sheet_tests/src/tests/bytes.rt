// Sheets in bytes.
use super::{bench, fields};
use line::Fault;
use sheet::{ReadRefusal, Refusal, Sheet, WriteRefusal};
use std::process::Abort;
use std::test::Fail;

// The bench sheet: seven formulas, two rules, a trailer. The tests don't stand on the crate bench,
// which stands on what they test.
const BENCH: [u8; 62] = [
    1, 1, 0, 0, 0, 0, 0, 0, 1, 15, 0, 0, 0, 0, 0, 0, 6, 1, 0, 0, 0, 0, 0, 10, 1, 0, 0, 0, 0, 0, 0,
    0, 1, 18, 0, 0, 0, 0, 0, 0, 2, 4, 0, 0, 0, 0, 0, 0, 5, 5, 3, 0, 0, 5, 0, 20, 2, 6, 7, 2, 0, 56,
];

#[test]
fn bench_is_written(rt: HostRuntime) -> Result<(), Fail> {
    let sheet = bench(rt.alloc())?;
    let mut out = [9u8; 64];
    assert_eq!(rt; sheet.write(&mut out[0..61]), Err(WriteRefusal::Short));
    assert_eq!(rt; out[0], 9);
    assert_eq!(rt; sheet.write(&mut out), Ok(62));
    assert!(rt; out[0..62] == BENCH[0..62]);
    assert_eq!(rt; out[62], 9);
    assert_eq!(rt; u8::from(WriteRefusal::Short), 23);
    Ok(())
}

#[test]
fn bench_is_read(rt: HostRuntime) -> Result<(), Fail> {
    let mut sheet = Sheet::new(rt.alloc())?;
    sheet.add(fields(0, 0, 0, 0, 0, 0))?;
    assert_eq!(rt; sheet.read(&BENCH), Ok(()));
    assert_eq!(rt; sheet.formulas().len(), 7);
    assert_eq!(rt; sheet.cells(), 30);
    assert_eq!(rt; sheet.rule_reach(1), Some(19));
    let mut out = [0u8; 62];
    assert_eq!(rt; sheet.write(&mut out), Ok(62));
    assert!(rt; out[0..62] == BENCH[0..62]);
    Ok(())
}

// What a sheet tells of bytes, after which it is empty.
fn told(rt: &impl Abort, heap: std::alloc::Global, bytes: &[u8]) -> Result<Fault, Fail> {
    let mut sheet = bench(heap)?;
    let Err(refusal) = sheet.read(bytes) else {
        return Err(Fail::new("a refusal"));
    };
    assert_eq!(rt; sheet.formulas().len(), 0);
    assert_eq!(rt; sheet.rules().len(), 0);
    assert_eq!(rt; sheet.cells(), 0);
    Ok(Fault::from(refusal))
}

// The tests of feeds have one too: no crate of tests stands on another.
fn fault(layer: u8, number: u8, place: u64) -> Fault {
    Fault {
        layer,
        number,
        place,
    }
}

#[test]
fn trailers(rt: HostRuntime) -> Result<(), Fail> {
    assert_eq!(rt; told(&rt, rt.alloc(), b"")?, fault(1, 21, 0));
    assert_eq!(rt; told(&rt, rt.alloc(), &[0, 0, 0])?, fault(1, 21, 0));
    assert_eq!(rt; told(&rt, rt.alloc(), &BENCH[1..62])?, fault(1, 21, 0));
    assert_eq!(rt; told(&rt, rt.alloc(), &[1, 0, 0, 0])?, fault(1, 21, 0));
    assert_eq!(rt; told(&rt, rt.alloc(), &[0, 0, 0, 8])?, fault(1, 22, 0));
    assert_eq!(rt; told(&rt, rt.alloc(), &[0, 0, 1, 0])?, fault(1, 22, 0));
    let mut sheet = bench(rt.alloc())?;
    assert_eq!(rt; sheet.read(&[0, 0, 0, 0]), Ok(()));
    assert_eq!(rt; sheet.formulas().len(), 0);
    Ok(())
}

#[test]
fn a_refused_reading_empties_a_full_sheet(rt: HostRuntime) -> Result<(), Fail> {
    let mut sheet = Sheet::new(rt.alloc())?;
    for _ in 0..64 {
        sheet.add(fields(0, 0, 0, 0, 0, 0))?;
    }
    for _ in 0..8 {
        sheet.add_rule(63)?;
    }
    assert_eq!(rt; sheet.read(&[0, 0, 0]), Err(ReadRefusal::Length));
    assert_eq!(rt; sheet.formulas().len(), 0);
    assert_eq!(rt; sheet.rules().len(), 0);
    Ok(())
}

#[test]
fn items(rt: HostRuntime) -> Result<(), Fail> {
    assert_eq!(rt;
        told(&rt, rt.alloc(), &[2, 0, 0, 0, 0, 0, 0, 0, 1, 0, 0, 8])?,
        fault(2, 15, 0)
    );
    assert_eq!(rt;
        told(&rt, rt.alloc(), &[0, 0, 0, 0, 0, 0, 0, 0, 0, 1, 1, 2, 0, 8])?,
        fault(2, 15, 2)
    );
    let mut many = [0u8; 524];
    many[520] = 65;
    many[522] = 2;
    many[523] = 8;
    assert_eq!(rt; told(&rt, rt.alloc(), &many)?, fault(2, 11, 64));
    assert_eq!(rt;
        Fault::from(ReadRefusal::Item {
            place: 3,
            refusal: Refusal::Cells,
        }),
        fault(2, 18, 3)
    );
    Ok(())
}
