// A sheet.
ghost use Rattle.std.specs.Prelude.{◌≡◌, ◌≤◌, vec_capacity};
ghost use Rattle.sheet.specs.Conditions.{Conditions, server};
ghost use Rattle.sheet.specs.Formulas.{reaches as reaches_of, total};

mod adding;
mod asking;
mod bytes;

use crate::formulas::Formula;

// Formulas, numbered from 0, and rules, each of which is the number of a formula. Every sheet obeys
// its conditions, and has room for all that it may hold. It has no model, which would hide its
// conditions from the crates above.
#[derive(Drop)]
pub struct Sheet {
    formulas: Vec<Formula>,
    // The reach of each formula. It stands beside them and not with them, since the formulas are
    // lent as one slice.
    reaches: Vec<Option<u32>>,
    rules: Vec<u8>,
    // What the formulas cost.
    cells: u32,
    ghost lawful: { Conditions server formulas.items rules.items },
    ghost reaching: { reaches.items ≡ reaches_of formulas.items },
    ghost costing: { cells ≡ total formulas.items },
    ghost formulas_room: { 64 ≤ vec_capacity formulas },
    ghost reaches_room: { 64 ≤ vec_capacity reaches },
    ghost rules_room: { 8 ≤ vec_capacity rules },
}
