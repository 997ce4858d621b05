// The judge: whether a formula holds at a place of a held log, by counting plainly.
#![tactic(auto)]

ghost use Rattle.std.specs.Prelude.{◌≡◌};
ghost use Rattle.sheet.specs.Contents as contents;
ghost use Rattle.judge.specs.Judged.{judged};

mod answers;
mod checks;
mod counting;
mod held;

pub use answers::Refusal;
pub use checks::LONGEST;
use checks::check;
use held::Held;
use line::Line;
use scale::Plain;
use sheet::Sheet;

// Whether the formula holds at the place, with the scales as the meanings; or why it is not judged.
#[tactic(auto, unfolding(crate::specs::Counting::truth))]
pub fn judge(
    sheet: &Sheet,
    scales: &[Plain; 8],
    log: &[Line],
    formula: usize,
    place: usize,
) -> Result<bool, Refusal>
    ensures { result ≡ judged (contents.of sheet.now).formulas scales.now log.now formula place }
{
    check(sheet.formulas(), log, formula, place)?;
    let held = Held {
        formulas: sheet.formulas(),
        scales,
        log,
    };
    Ok(held.holds(formula, place))
}
