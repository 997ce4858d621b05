// A held log, and what is read of it.
ghost use Rattle.std.specs.Prelude.{◌≤◌, length};
ghost use Rattle.sheet.specs.Conditions.{EachLawful};

use line::Line;
use scale::Plain;
use sheet::{Formula, Window};

// What stands at a place that the log does not have.
const BLANK: Line = Line { time: 0, marks: 0 };

// A log that is held, with the formulas that are asked of it and what the scales mean. It is short,
// since the judge goes as deep as the log is long.
#[derive(Clone, Copy)]
pub(crate) struct Held<'a> {
    pub(crate) formulas: &'a [Formula],
    pub(crate) scales: &'a [Plain],
    pub(crate) log: &'a [Line],
    ghost lawful: { EachLawful formulas.now },
    ghost short: { length log.now ≤ 1024 },
}

impl Held<'_> {
    ghost use Rattle.std.specs.Prelude.{◌≡◌, true, slice_index_or};
    ghost use Rattle.sheet.specs.Conditions.{lawful_at};
    ghost use Rattle.sheet.specs.declared.Formula.TheVariants.{Never};
    ghost use Rattle.truth.specs.Truth.{at, within};
    ghost use Rattle.judge.specs.Scales.{said};

    // The formula with a number. A number that is not there never holds.
    pub(crate) fn formula(&self, n: usize) -> Formula
        ensures value { result ≡ slice_index_or self.now.formulas.now n Never }
        ensures lawful { lawful_at n result ≡ true }
    {
        self.formulas.get(n).copied().unwrap_or(Formula::Never)
    }

    // The line at a place, from 1.
    pub(crate) fn line(&self, place: usize) -> Line
        ensures { result ≡ at self.now.log.now place }
    {
        let index = place.saturating_sub(1);
        self.log.get(index).copied().unwrap_or(BLANK)
    }

    // Whether the gap in seconds from place `h` lies in the window.
    pub(crate) fn is_within(&self, window: Window, place: usize, h: usize) -> bool
        ensures { result ≡ within self.now.log.now window place h }
    {
        window.contains(self.line(place).time.saturating_sub(self.line(h).time))
    }

    // What a scale says to a count. A scale that is not there says no.
    #[tactic(auto, using(crate::proofs::Saids::said_at, crate::proofs::Saids::said_past))]
    pub(crate) fn says(&self, scale: u8, count: u64) -> bool
        ensures { result ≡ said self.now.scales.now scale count }
    {
        match self.scales.get(usize::from(scale)) {
            Some(plain) => plain.says(count),
            None => false,
        }
    }
}
