// A queue of seconds whose value is always at hand.
ghost use Rattle.std.specs.Prelude.{◌≡◌, ◌<◌, ◌++◌, ◌↔◌, List, [], ◌∷◌, drop, true, false, IfOk};
ghost use Rattle.window.specs.declared.Truths.{Truths};
ghost use Rattle.window.specs.Waiting.{Second, lines_of};
ghost use Rattle.window.specs.Queues.{Holds, first, count, room};

use crate::Summary;
use crate::cells::{Cell, Slot, fold_from_the_end};
use std::alloc::{AllocError, Global};
use std::collections::VecDeque;

// Seconds that wait, the oldest first, each with the value of its lines. It has two parts: in the
// front, each second has also the value of all lines from it on to the end of that part; behind it,
// there is one value for all lines. When the front is used up, the newer part becomes the front.
#[derive(Drop)]
pub struct Queue<V> {
    slots: VecDeque<Slot<V>>,
    // How many seconds are in the front.
    front: usize,
    // The value of the lines behind it.
    newer: V,
}

impl<V: Copy> Queue<V> {
    // An empty queue with room for so many seconds. It gets all its memory here.
    pub fn new<K: Summary<Value = V>>(
        kind: &K,
        seconds: usize,
        heap: Global,
    ) -> Result<Queue<V>, AllocError>
        ensures made { IfOk result (λ q. Holds (K.value kind.now) q []) }
        ensures room { IfOk result (λ q. room q ≡ seconds) }
    {
        Ok(Queue {
            slots: VecDeque::with_capacity(heap, seconds)?,
            front: 0,
            newer: kind.empty(),
        })
    }

    // The value of all lines.
    pub fn value<K: Summary<Value = V>>(&self, kind: &K) -> V
        ensures { (seconds : List Second) → Holds (K.value kind.now) self.now seconds → result ≡ K.value kind.now (lines_of seconds) }
    {
        match self.slots.front() {
            Some(oldest) if self.front > 0 => kind.join(oldest.fold, self.newer),
            _ => self.newer,
        }
    }

    // The oldest second with its value, if there is one. It stays.
    pub fn oldest(&self) -> Option<Cell<V>>
        ensures { (value : List Truths → V) (seconds : List Second) → Holds value self.now seconds → result ≡ first value seconds }
    {
        match self.slots.front() {
            Some(oldest) => Some(oldest.cell),
            None => None,
        }
    }

    // A second more, at the end. Where there is no room, false, and nothing changes.
    pub fn push<K: Summary<Value = V>>(&mut self, kind: &K, cell: Cell<V>) -> bool
        ensures cases { (result ≡ true) ↔ (count self.old < room self.old) }
        ensures after { result ≡ true → (seconds : List Second) (lines : List Truths) → Holds (K.value kind.now) self.old seconds → cell.value ≡ K.value kind.now lines → Holds (K.value kind.now) self.new (seconds ++ record { time = cell.time; lines = lines } ∷ []) }
        ensures refused { result ≡ false → self.new ≡ self.old }
        ensures room { room self.new ≡ room self.old }
    {
        if self.slots.len() >= self.slots.capacity() {
            return false;
        }
        self.slots.push_back_reserved(Slot {
            cell,
            fold: cell.value,
        });
        self.newer = kind.join(self.newer, cell.value);
        true
    }

    // Makes all that waits the front.
    fn turn_over<K: Summary<Value = V>>(&mut self, kind: &K)
        ensures same { (seconds : List Second) → Holds (K.value kind.now) self.old seconds → Holds (K.value kind.now) self.new seconds }
        ensures front { self.new.front ≡ count self.old }
        ensures len { count self.new ≡ count self.old }
        ensures room { room self.new ≡ room self.old }
    {
        fold_from_the_end(kind, self.slots.make_contiguous());
        self.front = self.slots.len();
        self.newer = kind.empty();
    }

    // Where the front is used up, all that waits becomes the front.
    fn refresh<K: Summary<Value = V>>(&mut self, kind: &K)
        ensures same { (seconds : List Second) → Holds (K.value kind.now) self.old seconds → Holds (K.value kind.now) self.new seconds }
        ensures front { 0 < count self.new → 0 < self.new.front }
        ensures room { room self.new ≡ room self.old }
    {
        if self.front == 0 {
            self.turn_over(kind);
        }
    }

    // The oldest second with its value, if there is one. It leaves.
    pub fn pop<K: Summary<Value = V>>(&mut self, kind: &K) -> Option<Cell<V>>
        ensures after { (seconds : List Second) → Holds (K.value kind.now) self.old seconds → (result ≡ first (K.value kind.now) seconds) × Holds (K.value kind.now) self.new (drop 1 seconds) }
        ensures room { room self.new ≡ room self.old }
    {
        self.refresh(kind);
        let slot = self.slots.pop_front()?;
        self.front -= 1;
        Some(slot.cell)
    }

    // None waits any more.
    pub fn clear<K: Summary<Value = V>>(&mut self, kind: &K)
        ensures after { Holds (K.value kind.now) self.new [] }
        ensures room { room self.new ≡ room self.old }
    {
        self.slots.clear();
        self.front = 0;
        self.newer = kind.empty();
    }
}
