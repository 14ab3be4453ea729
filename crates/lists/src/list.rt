ghost use Rattle.std.specs.Prelude.{◌≡◌, ℕ, ◌≤◌, List, [], length};
ghost use Rattle.facts.specs.Meanings.{Meaning, meaning};
ghost use Rattle.lists.specs.Waiting.{Joins, Gives};

use facts::{Fact, Kind};

// A waiting list: facts in order, with a fixed capacity.
pub trait WaitingList<V: Kind> {
    ghost waiting: { Self → List Meaning };

    ghost capacity: { Self → ℕ };

    // Puts the fact at the end, and says whether it could.
    fn put(&mut self, fact: &Fact<V>) -> bool
        ensures joins { Joins (waiting self.old) (capacity self.old) (meaning V.Kind.meaning fact.now) result (waiting self.new) }
        ensures fixed { capacity self.new ≡ capacity self.old };

    // Takes one fact out, if any waits.
    fn take(&mut self) -> Option<Fact<V>>
        ensures gives { Gives V.Kind.meaning (waiting self.old) result (waiting self.new) }
        ensures fixed { capacity self.new ≡ capacity self.old };

    // How many facts wait.
    fn count(&self) -> usize
        ensures count { result ≡ length (waiting self.now) }
        ensures within { result ≤ capacity self.now }
        ensures none { result ≡ 0 → waiting self.now ≡ [] };

    // How many facts may wait.
    fn capacity(&self) -> usize
        ensures value { result ≡ capacity self.now }
        ensures few { result ≤ 4096 };
}

pub const MOST_WAITING: usize = 4096;
