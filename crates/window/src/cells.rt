// What a queue keeps of a second.
ghost use Rattle.std.specs.Prelude.{◌≡◌, List, length};
ghost use Rattle.window.specs.Waiting.{Second, cells_of, folds_of, cells_in, folds_in};

use crate::Summary;

// A second and the value of its lines.
#[derive(Clone, Copy, PartialEq, Eq, Debug)]
pub struct Cell<V> {
    pub time: u32,
    pub value: V,
}

// A cell, and the value of all lines from it on to the end of its part of the queue.
#[derive(Clone, Copy)]
pub struct Slot<V> {
    pub cell: Cell<V>,
    pub fold: V,
}

// Gives each slot the value of the lines from it on.
pub fn fold_from_the_end<V: Copy, K: Summary<Value = V>>(kind: &K, slots: &mut [Slot<V>])
    ensures len { length slots.new ≡ length slots.old }
    ensures cells { cells_in slots.new ≡ cells_in slots.old }
    ensures folds { (seconds : List Second) → cells_in slots.old ≡ cells_of (K.value kind.now) seconds → folds_in slots.new ≡ folds_of (K.value kind.now) seconds }
{
    let mut fold = kind.empty();
    // By an index: no clause of iter_mut().rev() says what the slice ends as.
    for i in (0..slots.len()).rev() {
        fold = kind.join(slots[i].cell.value, fold);
        slots[i].fold = fold;
    }
}
