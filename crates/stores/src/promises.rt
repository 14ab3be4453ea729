ghost use Rattle.std.specs.Prelude.{◌≡◌, min, length, drop, replicate};
ghost use Rattle.facts.specs.Meanings.{meaning};
ghost use Rattle.facts.specs.Places.{empty};
ghost use Rattle.stores.specs.Built.{flat_cells, packed_cells};
ghost use Rattle.stores.specs.Stores.{Placed, Removed, Marked, Highest};

use crate::cell::{FlatCell, PackedCell};
use crate::flat::FlatStore;
use crate::packed::PackedStore;
use crate::store::Store;
use facts::{Fact, Kind};

// What a flat store promises, said of it alone.
pub(crate) fn new_flat<'a, V: Kind>(cells: &'a mut [FlatCell<V>]) -> FlatStore<'a, V>
    ensures clears { flat_cells V.Kind.meaning result ≡ replicate (min 4096 (length cells.old)) empty }
    ensures marks { result.picker.place ≡ 0 }
    ensures beyond { drop 4096 result.cells.now ≡ drop 4096 cells.old }
{
    FlatStore::new(cells)
}

pub(crate) fn put_flat<V: Kind>(
    store: &mut FlatStore<V>,
    fact: &Fact<V>,
    number: u32,
) -> Option<usize>
    ensures puts { Placed (flat_cells V.Kind.meaning store.old) number (meaning V.Kind.meaning fact.now) result (flat_cells V.Kind.meaning store.new) }
    ensures marks { Marked (flat_cells V.Kind.meaning store.old) store.old.picker.place result store.new.picker.place }
    ensures beyond { drop 4096 store.new.cells.now ≡ drop 4096 store.old.cells.now }
{
    store.put(fact, number)
}

pub(crate) fn remove_flat<V: Kind>(store: &mut FlatStore<V>, place: usize, number: u32) -> bool
    ensures removes { Removed (flat_cells V.Kind.meaning store.old) place number result (flat_cells V.Kind.meaning store.new) }
    ensures marks { store.new.picker.place ≡ store.old.picker.place }
    ensures beyond { drop 4096 store.new.cells.now ≡ drop 4096 store.old.cells.now }
{
    store.remove(place, number)
}

// What a packed store promises, said of it alone.
pub(crate) fn new_packed<'a, V: Kind>(cells: &'a mut [PackedCell<V>]) -> PackedStore<'a, V>
    ensures clears { packed_cells V.Kind.low V.Kind.high result ≡ replicate (min 4096 (length cells.old)) empty }
    ensures beyond { drop 4096 result.cells.now ≡ drop 4096 cells.old }
{
    PackedStore::new(cells)
}

pub(crate) fn put_packed<V: Kind>(
    store: &mut PackedStore<V>,
    fact: &Fact<V>,
    number: u32,
) -> Option<usize>
    ensures puts { Placed (packed_cells V.Kind.low V.Kind.high store.old) number (meaning V.Kind.meaning fact.now) result (packed_cells V.Kind.low V.Kind.high store.new) }
    ensures highest { Highest (packed_cells V.Kind.low V.Kind.high store.old) result }
    ensures beyond { drop 4096 store.new.cells.now ≡ drop 4096 store.old.cells.now }
{
    store.put(fact, number)
}

pub(crate) fn remove_packed<V: Kind>(store: &mut PackedStore<V>, place: usize, number: u32) -> bool
    ensures removes { Removed (packed_cells V.Kind.low V.Kind.high store.old) place number result (packed_cells V.Kind.low V.Kind.high store.new) }
    ensures beyond { drop 4096 store.new.cells.now ≡ drop 4096 store.old.cells.now }
{
    store.remove(place, number)
}
