// The paired set.
ghost use Rattle.std.specs.Prelude.{◌≡◌, ◌-◌, ◌<◌, ◌≤◌, min, MatchOption};
ghost use Rattle.scale.specs.Pairs as pair;

use crate::ScaleSet;

// Two sets as one: its scales 0 to 3 are those of the first, its scales 4 to 7 are the scales 0 to
// 3 of the second.
#[derive(Drop)]
pub struct Paired<A, B> {
    pub first: A,
    pub second: B,
}

// The scale of the second set that a scale of the pair is, if it is one. A scale above 7 is read as
// 7, and so is scale 3 of the second set.
fn in_second(scale: u8) -> Option<u8>
    ensures { MatchOption result (scale < 4) (λ own. 4 ≤ scale × own ≡ min scale 7 - 4) }
{
    scale.min(7).checked_sub(4)
}

// The two sets have two types, so each question chooses between them by a match of its own: a
// function that chose for all five would take each question twice, as two closures.
impl<A: ScaleSet, B: ScaleSet> ScaleSet for Paired<A, B> {
    ghost meaning = { pair.either_of A.ScaleSet.meaning B.ScaleSet.meaning };

    ghost folding = { pair.either_of A.ScaleSet.folding B.ScaleSet.folding };

    ghost sizes = { pair.either A.ScaleSet.sizes B.ScaleSet.sizes };

    ghost laws = { pair.laws A.ScaleSet.laws B.ScaleSet.laws };

    fn size(&self, scale: u8) -> u16 {
        match in_second(scale) {
            None => self.first.size(scale),
            Some(own) => self.second.size(own),
        }
    }

    fn zero(&self, scale: u8) -> u16 {
        match in_second(scale) {
            None => self.first.zero(scale),
            Some(own) => self.second.zero(own),
        }
    }

    fn one(&self, scale: u8) -> u16 {
        match in_second(scale) {
            None => self.first.one(scale),
            Some(own) => self.second.one(own),
        }
    }

    fn join(&self, scale: u8, a: u16, b: u16) -> u16 {
        match in_second(scale) {
            None => self.first.join(scale, a, b),
            Some(own) => self.second.join(own, a, b),
        }
    }

    fn verdict(&self, scale: u8, class: u16) -> bool {
        match in_second(scale) {
            None => self.first.verdict(scale, class),
            Some(own) => self.second.verdict(own, class),
        }
    }
}
