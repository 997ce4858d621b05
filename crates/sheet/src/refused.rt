// Which raw fields are a formula, and why others are none.
ghost use Rattle.std.specs.Prelude.{◌≡◌, cond, nat_le};
ghost use Rattle.std.specs.Option.{ok_or};
ghost use Rattle.sheet.specs.Fields.{kind_number};
ghost use Rattle.sheet.specs.Formulas.{formula_of};
ghost use Rattle.sheet.specs.Refused as refused;
ghost use Rattle.sheet.specs.Windows.{window_of};

use crate::answers::Refusal;
use crate::fields::Fields;
use crate::formulas::Formula;
use crate::kinds::Kind;
use crate::windows::Window;

// The formula that fields are where `n` formulas are there, or what is wrong with them by
// themselves. Each kind tests its fields in the order of the refusals' numbers.
pub fn formula(n: usize, f: Fields) -> Result<Formula, Refusal>
    ensures { result ≡ refused.unless (refused.fault n f) (formula_of f) }
{
    let kind = Kind::try_from(f.kind)?;
    if is_spare(kind, f) {
        return Err(Refusal::Spare);
    }
    match kind {
        Kind::Never => Ok(Formula::Never),
        Kind::Mark => Ok(Formula::Mark {
            mark: below(26, f.a, Refusal::Mark)?,
        }),
        Kind::Not => Ok(Formula::Not {
            a: below(n, f.a, Refusal::Forward)?,
        }),
        Kind::Or => Ok(Formula::Or {
            a: below(n, f.a, Refusal::Forward)?,
            b: below(n, f.b, Refusal::Forward)?,
        }),
        Kind::Previous => Ok(Formula::Previous {
            a: below(n, f.a, Refusal::Forward)?,
            window: window(f)?,
        }),
        Kind::Since => Ok(Formula::Since {
            a: below(n, f.a, Refusal::Forward)?,
            b: below(n, f.b, Refusal::Forward)?,
            window: window(f)?,
        }),
        Kind::Count => Ok(Formula::Count {
            a: below(n, f.a, Refusal::Forward)?,
            b: below(n, f.b, Refusal::Forward)?,
            window: window(f)?,
            scale: below(8, f.scale, Refusal::Scale)?,
        }),
    }
}

// Whether a field that the kind does not use is not 0.
fn is_spare(kind: Kind, f: Fields) -> bool
    requires { f.kind ≡ kind_number kind }
    ensures { result ≡ refused.spare f }
{
    let used = kind.used();
    !used.a && f.a != 0
        || !used.b && f.b != 0
        || !used.scale && f.scale != 0
        || !used.window && f.low != 0
        || !used.window && f.high != 0
}

// The number, where it is below an end.
fn below(end: usize, number: u8, refusal: Refusal) -> Result<u8, Refusal>
    ensures { result ≡ cond (nat_le end number) (Err refusal) (Ok number) }
{
    if usize::from(number) >= end {
        return Err(refusal);
    }
    Ok(number)
}

fn window(f: Fields) -> Result<Window, Refusal>
    ensures { result ≡ ok_or (window_of f.low f.high) Refusal.Window }
{
    Window::new(f.low, f.high).ok_or(Refusal::Window)
}
