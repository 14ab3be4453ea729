ghost use Rattle.std.specs.Prelude.{◌≡◌, ◌<◌, min, ◌⊎◌, [], length, drop};
ghost use Rattle.facts.specs.Meanings.{meaning};
ghost use Rattle.lists.specs.Built.{waiting, capacity, start, Slot};
ghost use Rattle.lists.specs.Waiting.{Joins, Gives, GivesEnd};

use crate::list::{MOST_WAITING, WaitingList};
use facts::{Fact, Kind, MOST_ARGS};

// A list on the caller's memory. A fact joins at the end; one is taken from the end where LAST holds, else
// from the start. Where LAST holds the facts stand at the front of the memory; else the memory is a ring:
// they stand from the index first on, going round.
// There is no heap, so the memory is lent by the caller, with a length beside it.
#[derive(Drop)]
pub struct RingList<'a, V, const LAST: bool> {
    memory: &'a mut [Fact<V>],
    first: usize,
    len: usize,
}

// A list that gives the last fact.
pub type LastFirst<'a, V> = RingList<'a, V, true>;

// A list that gives the first fact.
pub type FirstFirst<'a, V> = RingList<'a, V, false>;

impl<'a, V: Kind, const LAST: bool> RingList<'a, V, LAST> {
    // An empty list; its capacity is that of the memory, up to 4,096.
    pub fn new(memory: &'a mut [Fact<V>]) -> RingList<'a, V, LAST>
        ensures empty { waiting V.Kind.meaning result ≡ [] }
        ensures capacity { capacity result ≡ min 4096 (length memory.old) }
        ensures same { result.memory.now ≡ memory.old }
    {
        RingList {
            memory,
            first: 0,
            len: 0,
        }
    }

    // Where the fact at a position stands in the memory.
    fn slot(&self, position: usize) -> usize
        requires { position < capacity self.now }
        ensures { Slot (start self.now) position (capacity self.now) result }
    {
        let capacity = self.capacity();
        let start = if LAST || self.first >= capacity {
            0
        } else {
            self.first
        };
        let place = start + position;
        if place < capacity {
            place
        } else {
            place - capacity
        }
    }
}

impl<'a, V: Kind, const LAST: bool> WaitingList<V> for RingList<'a, V, LAST> {
    ghost waiting = { waiting V.Kind.meaning };

    ghost capacity = { capacity };

    fn put(&mut self, fact: &Fact<V>) -> bool
        ensures joins { Joins (waiting V.Kind.meaning self.old) (capacity self.old) (meaning V.Kind.meaning fact.now) result (waiting V.Kind.meaning self.new) }
        ensures fixed { capacity self.new ≡ capacity self.old }
        ensures beyond { drop 4096 self.new.memory.now ≡ drop 4096 self.old.memory.now }
    {
        let count = self.count();
        if count >= self.capacity() || fact.count > MOST_ARGS {
            return false;
        }
        let at = self.slot(count);
        self.memory[at] = *fact;
        self.len = count + 1;
        true
    }

    fn take(&mut self) -> Option<Fact<V>>
        ensures gives { Gives V.Kind.meaning (waiting V.Kind.meaning self.old) result (waiting V.Kind.meaning self.new) }
        ensures fixed { capacity self.new ≡ capacity self.old }
        ensures order { GivesEnd LAST V.Kind.meaning (waiting V.Kind.meaning self.old) result (waiting V.Kind.meaning self.new) }
        ensures same { self.new.memory.now ≡ self.old.memory.now }
    {
        let count = self.count();
        if count == 0 {
            return None;
        }
        let position = if LAST { count - 1 } else { 0 };
        let at = self.slot(position);
        self.first = if LAST { self.first } else { at + 1 };
        self.len = count - 1;
        Some(self.memory[at].cut())
    }

    fn count(&self) -> usize {
        self.len.min(self.capacity())
    }

    fn capacity(&self) -> usize {
        self.memory.len().min(MOST_WAITING)
    }
}
