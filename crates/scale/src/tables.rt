// Sets of eight scales of one kind.
ghost use Rattle.std.specs.Prelude.{◌≡◌, ℕ};
ghost use Rattle.std.specs.Result.{result_err};
ghost use Rattle.scale.specs.Setting as setting;
ghost use Rattle.scale.specs.Tables as table;

use crate::{Refusal, Scale, ScaleSet};

// Eight scales of one kind, numbered 0 to 7.
#[derive(Drop)]
pub struct Table<S> {
    scales: [S; 8],
}

impl<S: Scale> Table<S> {
    // Every scale is fresh.
    pub fn new() -> Self
        ensures { (i : ℕ) → table.scale S.fresh result i ≡ S.fresh }
    {
        Table {
            scales: [S::fresh(); 8],
        }
    }

    // The scale of a number; a number above 7 is read as 7.
    pub fn at(&self, scale: u8) -> S
        ensures { result ≡ table.scale S.fresh self.now scale }
    {
        self.scales[usize::from(scale.min(7))]
    }

    // Sets one scale. A refusal changes nothing.
    pub fn set(&mut self, scale: u8, numbers: S::Numbers) -> Result<(), Refusal>
        ensures refused { result_err result ≡ setting.refusal scale (S.refusal numbers) }
        ensures after { setting.Changed (setting.refusal scale (S.refusal numbers)) (S.given numbers) scale self.old.scales self.new.scales }
        ensures says { setting.Says (setting.refusal scale (S.refusal numbers)) scale (S.meant numbers) (table.asked S.fresh S.says self.old) (table.asked S.fresh S.says self.new) }
    {
        if scale > 7 {
            return Err(Refusal::Scale);
        }
        self.scales[usize::from(scale)] = S::new(numbers)?;
        Ok(())
    }
}

impl<S: Scale> ScaleSet for Table<S> {
    ghost meaning = { table.asked S.fresh S.says };

    ghost folding = { table.asked S.fresh S.folded };

    ghost sizes = { table.asked S.fresh S.size };

    ghost laws = { table.laws S.fresh S.laws };

    fn size(&self, scale: u8) -> u16 {
        self.at(scale).size()
    }

    fn zero(&self, scale: u8) -> u16 {
        self.at(scale).fold(0)
    }

    fn one(&self, scale: u8) -> u16 {
        self.at(scale).fold(1)
    }

    fn join(&self, scale: u8, a: u16, b: u16) -> u16 {
        self.at(scale).join(a, b)
    }

    fn verdict(&self, scale: u8, class: u16) -> bool {
        self.at(scale).verdict(class)
    }
}
