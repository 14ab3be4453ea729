use crate::outcome::*;
use grammar::{Args, Guard, Head, Operand, Term, Test};
use rules::load;
use std::test::Fail;

// Rule 7 keeps a fact 1(0, 1) and takes a fact 1(0, 2), where variable 1 is at most variable 2.
const SAMPLE: [u32; 11] = [
    0x1000_0007,
    0x2001_0002,
    0x6000_0000,
    0x6000_0001,
    0x3001_0002,
    0x6000_0000,
    0x6000_0002,
    0x4000_0003,
    0x6000_0001,
    0x6000_0002,
    0xF000_0000,
];

fn head(first: u8, second: u8) -> Head {
    Head {
        name: 1,
        args: Args::Two(Operand::Var(first), Operand::Var(second)),
    }
}

#[test]
fn the_sample_is_read(rt: HostRuntime) -> Result<(), Fail> {
    let loaded = load(&SAMPLE)?;
    assert_eq!(rt; loaded.used, 11);
    let rules = loaded.table.rules();
    assert!(rt; rules.len() == 1);
    let rule = &rules[0];
    assert_eq!(rt; rule.label, 7);
    assert!(rt; rule.kept.len() == 1);
    assert_eq!(rt; rule.kept[0], head(0, 1));
    assert!(rt; rule.taken.len() == 1);
    assert_eq!(rt; rule.taken[0], head(0, 2));
    assert!(rt; rule.guards.len() == 1);
    assert_eq!(rt;
        rule.guards[0],
        Guard {
            test: Test::AtMost,
            left: Term::One(Operand::Var(1)),
            right: Term::One(Operand::Var(2)),
        }
    );
    assert_eq!(rt; rule.body.len(), 0);
    Ok(())
}

// A word of the sample in place of another.
fn changed(place: usize, word: u32) -> [u32; 11] {
    let mut words = SAMPLE;
    if place < 11 {
        words[place] = word;
    }
    words
}

#[test]
fn a_changed_sample_is_refused(rt: HostRuntime) {
    refuses(&rt, &SAMPLE[0..10], OutOfTurn, 10, 1);
    for (place, word, fault, at) in [
        (1, 0x2001_0012, StrayBit, 1),
        (3, 0x6000_0008, OutOfRange, 3),
        (4, 0x2001_0002, NoTaken, 0),
        (9, 0x6000_0003, Unbound, 9),
        (0, 0x1000_0000, Label, 0),
    ] {
        refuses(&rt, &changed(place, word), fault, at, 1);
    }
}

#[test]
fn words_after_end_are_left(rt: HostRuntime) -> Result<(), Fail> {
    let heap = rt.alloc();
    loads(&rt, &[END], 0, 1);
    loads(&rt, &[END, RULE, 0], 0, 1);
    let mut words = SAMPLE.to_vec(heap)?;
    words.extend_from_slice(&[0, RULE, END | 1])?;
    loads(&rt, &words, 1, 11);
    Ok(())
}
