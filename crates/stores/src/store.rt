ghost use Rattle.std.specs.Prelude.{◌≡◌, ◌≤◌, List, length};
ghost use Rattle.facts.specs.Meanings.{Meaning, meaning};
ghost use Rattle.facts.specs.Places.{Place};
ghost use Rattle.stores.specs.Stores.{empties, Reads, Placed, Removed};

use facts::{Fact, Kind};

// A store: places counted from 0, each empty or holding a fact under a number from 1 on.
pub trait Store<V: Kind> {
    ghost cells: { Self → List (Place Meaning) };

    // How many places there are.
    fn places(&self) -> usize
        ensures count { result ≡ length (cells self.now) }
        ensures few { result ≤ 4096 };

    // How many places are empty.
    fn room(&self) -> usize
        ensures { result ≡ empties (cells self.now) };

    // What a place holds: the number and the fact.
    fn read(&self, place: usize) -> Option<(u32, Fact<V>)>
        ensures { Reads V.Kind.meaning (cells self.now) place result };

    // Puts the fact under the number into an empty place, and answers the place.
    fn put(&mut self, fact: &Fact<V>, number: u32) -> Option<usize>
        ensures puts { Placed (cells self.old) number (meaning V.Kind.meaning fact.now) result (cells self.new) };

    // Empties the place if it holds the number, and says whether it did.
    fn remove(&mut self, place: usize, number: u32) -> bool
        ensures removes { Removed (cells self.old) place number result (cells self.new) };
}
