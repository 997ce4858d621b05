// What the tests of the judge share.
mod refusals;
mod scales;

use judge::judge;
use line::Line;
use sheet::{Fields, Refusal, Sheet};
use std::test::Fail;

fn line(time: u32, marks: u32) -> Line {
    Line { time, marks }
}

// What is told of the formula, on a sheet with `mark 0` alone: whether it holds, or the number of
// the refusal.
fn told(
    heap: std::alloc::Global,
    log: &[Line],
    formula: usize,
    place: usize,
) -> Result<Result<bool, u8>, Fail> {
    let mut sheet = Sheet::new(heap)?;
    sheet.add(Fields {
        kind: 1,
        a: 0,
        b: 0,
        scale: 0,
        low: 0,
        high: 0,
    })?;
    Ok(judge(&sheet, &scales::limits()?, log, formula, place).map_err(u8::from))
}
