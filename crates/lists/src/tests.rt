use crate::list::WaitingList;
use crate::ring::{FirstFirst, LastFirst};
use facts::{Fact, Kind, Reading};
use std::process::Abort;

fn reading(count: u8, word: u32) -> Fact<Reading> {
    Fact {
        name: 5,
        count,
        args: (
            Reading { word },
            Reading { word: 2 },
            Reading { word: 0xFFFF_FFFF },
        ),
    }
}

// The first argument of the fact that is taken.
fn taken<V: Kind, L: WaitingList<V>>(list: &mut L) -> Option<i32> {
    list.take().map(|fact| fact.read().args.0)
}

// Puts until the list refuses; a list of three then has three.
fn fills<L: WaitingList<Reading>>(rt: &impl Abort, list: &mut L) {
    assert_eq!(rt; list.capacity(), 3);
    assert_eq!(rt; list.count(), 0);
    assert_eq!(rt; taken(list), None);
    assert!(rt; !list.put(&reading(4, 1)), "count 4");
    assert_eq!(rt; list.count(), 0);
    for word in [1, 0xABCD_0002, 3] {
        assert!(rt; list.put(&reading(1, word)));
    }
    assert!(rt; !list.put(&reading(1, 4)), "full");
    assert_eq!(rt; list.count(), 3);
}

#[test]
fn the_last_comes_first(rt: HostRuntime) {
    let mut memory = [reading(255, 9); 3];
    let mut list = LastFirst::new(&mut memory);
    fills(&rt, &mut list);
    assert_eq!(rt; taken(&mut list), Some(3));
    assert_eq!(rt; taken(&mut list), Some(2));
    assert!(rt; list.put(&reading(3, 4)));
    for word in [Some(4), Some(1), None] {
        assert_eq!(rt; taken(&mut list), word);
    }
    assert_eq!(rt; list.count(), 0);
}

#[test]
fn the_first_comes_first(rt: HostRuntime) {
    let mut memory = [reading(255, 9); 3];
    let mut list = FirstFirst::new(&mut memory);
    fills(&rt, &mut list);
    assert_eq!(rt; taken(&mut list), Some(1));
    assert_eq!(rt; taken(&mut list), Some(2));
    for word in [4, 5] {
        assert!(rt; list.put(&reading(3, word)));
    }
    assert!(rt; !list.put(&reading(1, 6)));
    for word in [Some(3), Some(4), Some(5), None] {
        assert_eq!(rt; taken(&mut list), word);
    }
    assert_eq!(rt; list.count(), 0);
}

#[test]
fn memory_past_the_most_is_left(rt: HostRuntime) {
    let mut memory = [reading(255, 9); 4097];
    {
        let mut list = FirstFirst::new(&mut memory);
        assert_eq!(rt; list.capacity(), 4096);
        for _ in 0..4096 {
            assert!(rt; list.put(&reading(1, 1)));
        }
        assert!(rt; !list.put(&reading(1, 1)));
        assert_eq!(rt; list.count(), 4096);
    }
    assert_eq!(rt; memory[4095].args.0.word, 1);
    assert_eq!(rt; memory[4096].args.0.word, 9);
}

// A list without memory refuses, and gives nothing.
fn holds_nothing<L: WaitingList<Reading>>(rt: &impl Abort, list: &mut L) {
    assert!(rt; !list.put(&reading(1, 1)));
    assert_eq!(rt; taken(list), None);
}

#[test]
fn no_memory_holds_nothing(rt: HostRuntime) {
    let mut first: [Fact<Reading>; 0] = [];
    let mut last: [Fact<Reading>; 0] = [];
    holds_nothing(&rt, &mut FirstFirst::new(&mut first));
    holds_nothing(&rt, &mut LastFirst::new(&mut last));
}
