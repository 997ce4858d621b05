// What the tests of sheets share.
mod adding;
mod bytes;

use sheet::{Fields, Refusal, Sheet};
use std::test::Fail;

fn fields(kind: u8, a: u8, b: u8, scale: u8, low: u16, high: u16) -> Fields {
    Fields {
        kind,
        a,
        b,
        scale,
        low,
        high,
    }
}

// More than two boluses within ten seconds since the last new programme, and an alarm that has not
// been silenced for five to twenty seconds.
fn bench(heap: std::alloc::Global) -> Result<Sheet, Fail> {
    let mut sheet = Sheet::new(heap)?;
    sheet.add(fields(1, 1, 0, 0, 0, 0))?;
    sheet.add(fields(1, 15, 0, 0, 0, 0))?;
    sheet.add(fields(6, 1, 0, 0, 0, 10))?;
    sheet.add(fields(1, 0, 0, 0, 0, 0))?;
    sheet.add(fields(1, 18, 0, 0, 0, 0))?;
    sheet.add(fields(2, 4, 0, 0, 0, 0))?;
    sheet.add(fields(5, 5, 3, 0, 5, 20))?;
    sheet.add_rule(2)?;
    sheet.add_rule(6)?;
    Ok(sheet)
}

// What a sheet of two formulas, `never` and `mark 25`, says to a third: it is taken, or the number
// of the refusal.
fn third(heap: std::alloc::Global, f: Fields) -> Result<Result<(), u8>, Fail> {
    let mut sheet = Sheet::new(heap)?;
    sheet.add(fields(0, 0, 0, 0, 0, 0))?;
    sheet.add(fields(1, 25, 0, 0, 0, 0))?;
    Ok(sheet.add(f).map_err(u8::from))
}
