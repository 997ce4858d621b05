// The bench sheet and its limits, and the worked examples of the logic.
#![tactic(auto)]

ghost use Rattle.std.specs.Prelude.{◌≡◌, IfOk};
ghost use Rattle.sheet.specs.Contents as contents;
ghost use Rattle.bench.specs.Bench as bench;
ghost use Rattle.bench.specs.Worked.{Worked};

use scale::Plain;
use sheet::Sheet;
use std::alloc::{AllocError, Global};

// A sheet, and what its scales mean.
#[derive(Drop)]
pub struct Bench {
    pub sheet: Sheet,
    pub scales: [Plain; 8],
}

// The bench sheet in bytes. Formulas 0 mark b, 1 mark p, 2 count b since p within 10 seconds, 3
// mark a, 4 mark s, 5 not s, 6 no s since an a that is 5 to 19 seconds old; rules 2 and 6.
const SHEET: [u8; 62] = [
    1, 1, 0, 0, 0, 0, 0, 0, 1, 15, 0, 0, 0, 0, 0, 0, 6, 1, 0, 0, 0, 0, 0, 10, 1, 0, 0, 0, 0, 0, 0,
    0, 1, 18, 0, 0, 0, 0, 0, 0, 2, 4, 0, 0, 0, 0, 0, 0, 5, 5, 3, 0, 0, 5, 0, 20, 2, 6, 7, 2, 0, 56,
];

// The bench sheet, with limit 2 at scale 0 and limit 0 at the others. The worked examples are about
// this sheet and these limits.
pub fn set_up(heap: Global) -> Result<Bench, AllocError>
    ensures sheet { IfOk result (λ b. contents.of b.sheet ≡ bench.sheet) }
    ensures limits { IfOk result (λ b. bench.Means b.scales) }
    ensures worked { Worked }
{
    let mut sheet = Sheet::new(heap)?;
    sheet.read(&SHEET).unwrap();
    let two = Plain::limit(2).unwrap();
    let none = Plain::limit(0).unwrap();
    Ok(Bench {
        sheet,
        scales: [two, none, none, none, none, none, none, none],
    })
}
