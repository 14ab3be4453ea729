// The largest amounts and numbers, and one more.
use crate::outcome::*;
use std::alloc::Global;
use std::test::Fail;

// Rules that only take a fact, with labels from 1.
fn many_rules(heap: Global, count: u16) -> Result<Vec<u32>, Fail> {
    let mut words = Vec::new(heap);
    for i in 0..count {
        words.push(RULE + 1 + i as u32)?;
        words.push(TAKEN)?;
    }
    words.push(END)?;
    Ok(words)
}

#[test]
fn rules_of_a_table(rt: HostRuntime) -> Result<(), Fail> {
    let heap = rt.alloc();
    loads(&rt, &many_rules(heap, 32)?, 32, 65);
    refuses(&rt, &many_rules(heap, 33)?, OutOfRange, 64, 33);
    Ok(())
}

// These words, then a part that many times, then END.
fn repeated(heap: Global, before: &[u32], part: &[u32], times: usize) -> Result<Vec<u32>, Fail> {
    let mut words = Vec::new(heap);
    words.extend_from_slice(before)?;
    for _ in 0..times {
        words.extend_from_slice(part)?;
    }
    words.push(END)?;
    Ok(words)
}

#[test]
fn parts_of_a_rule(rt: HostRuntime) -> Result<(), Fail> {
    let heap = rt.alloc();
    let rule = [FIRST];
    loads(&rt, &repeated(heap, &rule, &[TAKEN], 3)?, 1, 5);
    refuses(&rt, &repeated(heap, &rule, &[TAKEN], 4)?, OutOfRange, 4, 1);
    loads(&rt, &[FIRST, KEPT, KEPT, TAKEN, END], 1, 5);
    refuses(
        &rt,
        &[FIRST, KEPT, KEPT, KEPT, TAKEN, END],
        OutOfRange,
        4,
        1,
    );
    let head = [FIRST, TAKEN];
    let guard = [GUARD, CONST, CONST];
    loads(&rt, &repeated(heap, &head, &guard, 4)?, 1, 15);
    refuses(&rt, &repeated(heap, &head, &guard, 5)?, OutOfRange, 14, 1);
    loads(&rt, &repeated(heap, &head, &[BODY], 3)?, 1, 6);
    refuses(&rt, &repeated(heap, &head, &[BODY], 4)?, OutOfRange, 5, 1);
    Ok(())
}

#[test]
fn numbers_of_a_word(rt: HostRuntime) {
    loads(&rt, &[FIRST, TAKEN | 1, VAR | 7, END], 1, 4);
    refuses(&rt, &[FIRST, TAKEN | 1, VAR | 8, END], OutOfRange, 2, 1);
    loads(&rt, &[FIRST, TAKEN | 3, VAR, VAR, VAR, END], 1, 6);
    refuses(
        &rt,
        &[FIRST, TAKEN | 4, VAR, VAR, VAR, VAR, END],
        OutOfRange,
        1,
        1,
    );
    loads(
        &rt,
        &[FIRST, TAKEN, BODY | 3, CONST, CONST, CONST, END],
        1,
        7,
    );
    refuses(
        &rt,
        &[FIRST, TAKEN, BODY | 4, CONST, CONST, CONST, CONST, END],
        OutOfRange,
        2,
        1,
    );
    loads(&rt, &[FIRST, TAKEN, GUARD | 3, CONST, CONST, END], 1, 6);
    refuses(
        &rt,
        &[FIRST, TAKEN, GUARD | 4, CONST, CONST, END],
        OutOfRange,
        2,
        1,
    );
}

#[test]
fn labels_rise_from_one(rt: HostRuntime) {
    refuses(&rt, &[RULE, TAKEN, END], Label, 0, 1);
    loads(&rt, &[FIRST, TAKEN, RULE | 0xFFFF, TAKEN, END], 2, 5);
    refuses(&rt, &[RULE | 5, TAKEN, RULE | 5, TAKEN, END], Label, 2, 2);
    refuses(&rt, &[RULE | 5, TAKEN, RULE | 4, TAKEN, END], Label, 2, 2);
}
