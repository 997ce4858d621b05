// Limits.
ghost use Rattle.std.specs.Prelude.{◌≤◌};

use crate::Table;

mod folding;

// A limit k, from 0 to 1,000, says yes to counts above k.
#[derive(Clone, Copy)]
pub struct Limit {
    k: u16,
    ghost lawful: { k ≤ 1000 },
}

// Eight limits, one for each scale.
pub type LimitSet = Table<Limit>;
