// What is checked of a held log before it is judged.
ghost use Rattle.std.specs.Prelude.{◌≡◌, ◌≤◌, length, OnOk};
ghost use Rattle.std.specs.Result.{result_err};
ghost use Rattle.judge.specs.Refused as refused;

use crate::Refusal;
use line::Line;
use sheet::Formula;

// The longest log that is held, in lines.
pub const LONGEST: usize = 1_024;

fn any_unknown(log: &[Line]) -> bool
    ensures { result ≡ refused.any_unknown log.now }
{
    log.iter().any(|line| line.has_unknown())
}

fn falls(log: &[Line]) -> bool
    ensures { result ≡ refused.falls log.now }
{
    !log.is_sorted_by(|line, next| line.time <= next.time)
}

// Tells why a formula is not judged at a place of a log, if it is not.
pub(crate) fn check(
    formulas: &[Formula],
    log: &[Line],
    n: usize,
    place: usize,
) -> Result<(), Refusal>
    ensures refused { result_err result ≡ refused.refusal formulas.now log.now n place }
    ensures short { OnOk result (length log.now ≤ 1024) }
    ensures from { OnOk result (1 ≤ place) }
    ensures to { OnOk result (place ≤ length log.now) }
{
    if any_unknown(log) {
        return Err(Refusal::Unknown);
    }
    if falls(log) {
        return Err(Refusal::Backward);
    }
    if log.len() > LONGEST {
        return Err(Refusal::Long);
    }
    if n >= formulas.len() {
        return Err(Refusal::NoFormula);
    }
    if place == 0 || place > log.len() {
        return Err(Refusal::NoPlace);
    }
    Ok(())
}
