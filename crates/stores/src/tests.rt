use crate::cell::{FlatCell, PackedCell};
use crate::flat::FlatStore;
use crate::packed::PackedStore;
use crate::promises::{new_flat, new_packed, put_flat, put_packed, remove_flat, remove_packed};
use crate::store::Store;
use facts::{Fact, Kind, ReadFact, Reading, WholeCount};
use std::marker::PhantomData;
use std::process::Abort;
use std::test::Fail;

fn packed_junk<V: Kind>() -> PackedCell<V> {
    PackedCell {
        number: 9,
        label: 0xFFFF_FFFF,
        first: 0xFFFF_FFFF,
        second: 7,
        third: 7,
        kind: PhantomData,
    }
}

fn reading(count: u8, word: u32) -> Fact<Reading> {
    Fact {
        name: 5,
        count,
        args: (
            Reading { word },
            Reading { word: 0x0001_0002 },
            Reading { word: 0xFFFF_FFFF },
        ),
    }
}

fn flat_junk() -> FlatCell<Reading> {
    FlatCell {
        number: 9,
        fact: reading(200, 1),
    }
}

// What a place holds, read field by field.
fn held<V: Kind, S: Store<V>>(store: &S, place: usize) -> Option<(u32, ReadFact)> {
    store
        .read(place)
        .map(|(number, fact)| (number, fact.read()))
}

// Refusals and questions that say no, on a store of two places with number 7 in one of them, change nothing.
fn refuses<S: Store<Reading>>(rt: &impl Abort, store: &mut S, place: usize) {
    assert_eq!(rt; store.put(&reading(1, 84), 0), None, "number 0");
    assert_eq!(rt; store.put(&reading(4, 84), 1), None, "count 4");
    assert!(rt; !store.remove(place, 8), "another number");
    assert!(rt;
        !store.remove(1 - place.min(1), 0),
        "number 0 at an empty place"
    );
    assert!(rt; !store.remove(2, 7), "past the end");
    assert!(rt; store.read(2).is_none());
    assert!(rt; store.read(usize::MAX).is_none());
    assert_eq!(rt; store.places(), 2);
    assert_eq!(rt; store.room(), 1);
}

#[test]
fn the_flat_store_goes_round(rt: HostRuntime) {
    let mut cells = [flat_junk(); 4];
    let mut store = new_flat(&mut cells);
    assert_eq!(rt; store.room(), 4);
    for (place, number) in [(0, 1), (1, 2), (2, 3), (3, 4_294_967_295)] {
        assert_eq!(rt; put_flat(&mut store, &reading(1, 84), number), Some(place));
    }
    assert_eq!(rt; put_flat(&mut store, &reading(1, 84), 5), None);
    assert!(rt; remove_flat(&mut store, 1, 2));
    assert!(rt; remove_flat(&mut store, 3, 4_294_967_295));
    assert_eq!(rt; store.room(), 2);
    assert_eq!(rt; put_flat(&mut store, &reading(1, 84), 6), Some(3));
    assert_eq!(rt; put_flat(&mut store, &reading(1, 84), 7), Some(1));
}

#[test]
fn the_packed_store_fills_from_the_top(rt: HostRuntime) {
    let mut cells = [packed_junk(); 4];
    let mut store: PackedStore<Reading> = new_packed(&mut cells);
    assert_eq!(rt; store.room(), 4);
    for (place, number) in [(3, 1), (2, 2), (1, 3), (0, 4_294_967_295)] {
        assert_eq!(rt;
            put_packed(&mut store, &reading(1, 84), number),
            Some(place)
        );
    }
    assert_eq!(rt; put_packed(&mut store, &reading(1, 84), 5), None);
    assert!(rt; remove_packed(&mut store, 1, 3));
    assert!(rt; remove_packed(&mut store, 2, 2));
    assert_eq!(rt; store.room(), 2);
    assert_eq!(rt; put_packed(&mut store, &reading(1, 84), 6), Some(2));
}

#[test]
fn both_refuse(rt: HostRuntime) {
    let mut flat_cells = [flat_junk(); 2];
    let mut flat = FlatStore::new(&mut flat_cells);
    assert_eq!(rt; flat.put(&reading(1, 84), 7), Some(0));
    refuses(&rt, &mut flat, 0);
    let mut packed_cells = [packed_junk(); 2];
    let mut packed = PackedStore::new(&mut packed_cells);
    assert_eq!(rt; packed.put(&reading(1, 84), 7), Some(1));
    refuses(&rt, &mut packed, 1);
}

#[test]
fn only_meanings_are_kept(rt: HostRuntime) -> Result<(), Fail> {
    let mut flat_cells = [flat_junk()];
    let mut flat = FlatStore::new(&mut flat_cells);
    let mut packed_cells = [packed_junk()];
    let mut packed: PackedStore<Reading> = PackedStore::new(&mut packed_cells);
    let fact = reading(2, 0xABCD_0054);
    assert_eq!(rt; flat.put(&fact, 7), Some(0));
    assert_eq!(rt; packed.put(&fact, 7), Some(0));
    let (number, read) = held(&flat, 0).ok_or("held")?;
    assert_eq!(rt; (number, read.name, read.count), (7, 5, 2));
    assert_eq!(rt; (read.args.0, read.args.1), (84, 2));
    let (number, read) = held(&packed, 0).ok_or("held")?;
    assert_eq!(rt; (number, read.name, read.count), (7, 5, 2));
    assert_eq!(rt; read.args, (84, 2, 0));
    Ok(())
}

#[test]
fn packed_counts_reach_both_ends(rt: HostRuntime) -> Result<(), Fail> {
    let mut cells = [packed_junk()];
    let mut store: PackedStore<WholeCount> = PackedStore::new(&mut cells);
    let read = Fact {
        name: 255,
        count: 3,
        args: (-134_217_728, 134_217_727, -1),
    };
    let Some(fact) = Fact::make(read) else {
        return Err(Fail::new("the numbers lie within the ends"));
    };
    assert_eq!(rt; store.put(&fact, 1), Some(0));
    let (_, read) = held(&store, 0).ok_or("held")?;
    assert_eq!(rt; (read.name, read.count), (255, 3));
    assert_eq!(rt; read.args, (-134_217_728, 134_217_727, -1));
    Ok(())
}

#[test]
fn cells_past_the_most_are_left(rt: HostRuntime) {
    let mut cells = [packed_junk(); 4098];
    {
        let mut store: PackedStore<Reading> = PackedStore::new(&mut cells);
        assert_eq!(rt; store.places(), 4096);
        assert_eq!(rt; store.put(&reading(0, 0), 1), Some(4095));
        assert!(rt; store.read(4096).is_none());
        assert!(rt; !store.remove(4096, 9));
    }
    assert_eq!(rt; cells[4095].number, 1);
    assert_eq!(rt; cells[4096].number, 9);
    assert_eq!(rt; cells[4097].label, 0xFFFF_FFFF);
    let mut none: [PackedCell<Reading>; 0] = [];
    let mut store = PackedStore::new(&mut none);
    assert_eq!(rt; store.put(&reading(0, 0), 1), None);
    assert_eq!(rt; store.room(), 0);
}
