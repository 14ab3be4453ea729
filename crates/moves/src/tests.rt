use crate::{Refusal, move_one};
use facts::{Fact, Kind, Reading, WholeCount};
use lists::{FirstFirst, LastFirst, WaitingList};
use std::marker::PhantomData;
use std::process::Abort;
use std::test::Fail;
use stores::{FlatCell, FlatStore, PackedCell, PackedStore, Store};

fn words<V: Kind>() -> PackedCell<V> {
    PackedCell {
        number: 1,
        label: 1,
        first: 1,
        second: 1,
        third: 1,
        kind: PhantomData,
    }
}

// The first argument of the fact at a place.
fn argument<V: Kind, S: Store<V>>(store: &S, place: usize) -> Option<i32> {
    store.read(place).map(|(_, fact)| fact.read().args.0)
}

// Moves two of three facts into a store of two places, with every refusal on the way.
// Answers the arguments at the places 0 and 1.
fn moved<V: Kind, L: WaitingList<V> + Drop, S: Store<V> + Drop>(
    rt: &impl Abort,
    mut list: L,
    mut store: S,
    facts: &[Fact<V>],
) -> Result<(i32, i32), Fail> {
    assert_eq!(rt; move_one(&mut list, &mut store, 0), Err(Refusal::NoneWaits));
    for fact in facts {
        assert!(rt; list.put(fact));
    }
    assert_eq!(rt;
        move_one(&mut list, &mut store, 0),
        Err(Refusal::NumberZero)
    );
    let first = move_one(&mut list, &mut store, 1)?;
    let second = move_one(&mut list, &mut store, 2)?;
    assert_ne!(rt; first, second);
    assert_eq!(rt; move_one(&mut list, &mut store, 3), Err(Refusal::NoRoom));
    assert_eq!(rt;
        move_one(&mut list, &mut store, 0),
        Err(Refusal::NumberZero)
    );
    assert_eq!(rt; list.count(), 1);
    let low = argument(&store, 0).ok_or("held")?;
    let high = argument(&store, 1).ok_or("held")?;
    Ok((low, high))
}

// Moves from each list into each store: last-first into both, then first-first into both.
fn moved_between_all<V: Kind>(
    rt: &impl Abort,
    facts: &[Fact<V>],
    memory: &mut [Fact<V>],
    cells: &mut [FlatCell<V>],
    words: &mut [PackedCell<V>],
) -> Result<[(i32, i32); 4], Fail> {
    Ok([
        moved(rt, LastFirst::new(memory), FlatStore::new(cells), facts)?,
        moved(rt, LastFirst::new(memory), PackedStore::new(words), facts)?,
        moved(rt, FirstFirst::new(memory), FlatStore::new(cells), facts)?,
        moved(rt, FirstFirst::new(memory), PackedStore::new(words), facts)?,
    ])
}

fn reading(word: u32) -> Fact<Reading> {
    Fact {
        name: 1,
        count: 1,
        args: (Reading { word }, Reading { word }, Reading { word }),
    }
}

#[test]
fn readings_move_between_all(rt: HostRuntime) -> Result<(), Fail> {
    let facts = [
        reading(0xABCD_0000),
        reading(0x0003_0054),
        reading(0xFFFF_FFFF),
    ];
    let mut memory = [reading(1); 3];
    let mut cells = [FlatCell {
        number: 1,
        fact: reading(1),
    }; 2];
    let mut words = [words(); 2];
    assert_eq!(rt;
        moved_between_all(&rt, &facts, &mut memory, &mut cells, &mut words)?,
        [(65_535, 84), (84, 65_535), (0, 84), (84, 0)]
    );
    Ok(())
}

fn count(n: i32) -> Option<Fact<WholeCount>> {
    Fact::make(Fact {
        name: 1,
        count: 1,
        args: (n, 0, 0),
    })
}

#[test]
fn counts_move_between_all(rt: HostRuntime) -> Result<(), Fail> {
    let Some(low) = count(-134_217_728) else {
        return Err(Fail::new("the low end"));
    };
    let Some(middle) = count(-1) else {
        return Err(Fail::new("between the ends"));
    };
    let Some(high) = count(134_217_727) else {
        return Err(Fail::new("the high end"));
    };
    let facts = [low, middle, high];
    let mut memory = [low; 3];
    let mut cells = [FlatCell {
        number: 1,
        fact: low,
    }; 2];
    let mut words = [words(); 2];
    assert_eq!(rt;
        moved_between_all(&rt, &facts, &mut memory, &mut cells, &mut words)?,
        [
            (134_217_727, -1),
            (-1, 134_217_727),
            (-134_217_728, -1),
            (-1, -134_217_728),
        ]
    );
    Ok(())
}
