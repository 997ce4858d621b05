// What a sheet answers.
ghost use Rattle.std.specs.Prelude.{◌≡◌, ◌≤◌, IfSome};
ghost use Rattle.sheet.specs.Contents as contents;
ghost use Rattle.sheet.specs.Contents.{rule_reach};
ghost use Rattle.sheet.specs.Formulas.{beyond as beyond_of, greater as greater_of, reach as reach_among, reach_of, reaches as reaches_of, total};

use super::Sheet;
use crate::formulas::Formula;
use crate::windows::Window;

impl Sheet {
    // The formulas, by their numbers.
    pub fn formulas(&self) -> &[Formula]
        ensures { result.now ≡ (contents.of self.now).formulas }
    {
        self.formulas.as_slice()
    }

    // The rules, in order.
    pub fn rules(&self) -> &[u8]
        ensures { result.now ≡ (contents.of self.now).rules }
    {
        self.rules.as_slice()
    }

    // How many cells the sheet costs.
    pub fn cells(&self) -> u32
        ensures { result ≡ total (contents.of self.now).formulas }
    {
        self.cells
    }

    // The reach of a formula in seconds, if it has one. A number that is not there has none.
    pub fn reach(&self, n: usize) -> Option<u32>
        ensures { result ≡ reach_among (contents.of self.now).formulas n }
    {
        self.reaches.get(n).copied().flatten()
    }

    // The reach of a rule, which is that of its formula. A number that is not there has none.
    pub fn rule_reach(&self, k: usize) -> Option<u32>
        ensures { result ≡ rule_reach (contents.of self.now) k }
    {
        let n = self.rules.get(k)?;
        self.reach(usize::from(*n))
    }

    // The reach of a formula that could come next.
    #[tactic(auto, using(crate::proofs::Near::short_reach, crate::proofs::Near::short_greater))]
    pub(super) fn reach_of(&self, f: Formula) -> Option<u32>
        ensures { result ≡ reach_of (reaches_of (contents.of self.now).formulas) f }
    {
        match f {
            Formula::Never | Formula::Mark { .. } => Some(0),
            Formula::Not { a } => self.reach(usize::from(a)),
            Formula::Or { a, b } => greater(self.reach(usize::from(a)), self.reach(usize::from(b))),
            Formula::Previous { a, window } => beyond(window, self.reach(usize::from(a))),
            Formula::Since { a, b, window } | Formula::Count { a, b, window, .. } => {
                beyond(
                    window,
                    greater(self.reach(usize::from(a)), self.reach(usize::from(b))),
                )
            }
        }
    }
}

fn greater(x: Option<u32>, y: Option<u32>) -> Option<u32>
    ensures { result ≡ greater_of x y }
{
    Some(x?.max(y?))
}

// A window lets a reach begin where its longest gap ends; an open one has no such gap. A reach on a
// sheet is far below 2,000,000, so the sum fits.
fn beyond(window: Window, reach: Option<u32>) -> Option<u32>
    requires { IfSome reach (λ r. r ≤ 2000000) }
    ensures { result ≡ beyond_of window reach }
{
    let reach = reach?;
    match window {
        Window::Closed { high, .. } => Some(u32::from(high.saturating_sub(1)) + reach),
        Window::Open { .. } => None,
    }
}
