// Words out of turn, and bits that a word may not set.
use crate::outcome::*;

#[test]
fn a_table_is_rules_and_end(rt: HostRuntime) {
    refuses(&rt, &[], OutOfTurn, 0, 0);
    refuses(&rt, &[BODY, END], OutOfTurn, 0, 0);
    for word in [
        0,
        1,
        KEPT,
        TAKEN,
        GUARD,
        VAR,
        CONST,
        SUM,
        DIFF,
        FEED,
        0xE000_0000,
    ] {
        refuses(&rt, &[word, END], OutOfTurn, 0, 0);
        refuses(&rt, &[FIRST, TAKEN, BODY, word, END], OutOfTurn, 3, 1);
    }
}

#[test]
fn parts_stand_in_order(rt: HostRuntime) {
    for word in [END, GUARD, BODY, VAR, FEED] {
        refuses(&rt, &[FIRST, word, END], OutOfTurn, 1, 1);
    }
    refuses(&rt, &[FIRST, RULE | 2, TAKEN, END], OutOfTurn, 1, 2);
    refuses(&rt, &[FIRST, TAKEN, KEPT, END], OutOfTurn, 2, 1);
    refuses(
        &rt,
        &[FIRST, TAKEN, BODY, GUARD, CONST, CONST, END],
        OutOfTurn,
        3,
        1,
    );
}

#[test]
fn arguments_follow_their_word(rt: HostRuntime) {
    refuses(&rt, &[FIRST, TAKEN | 2, VAR, END], OutOfTurn, 3, 1);
    refuses(&rt, &[FIRST, TAKEN | 1, VAR, VAR, END], OutOfTurn, 3, 1);
    refuses(&rt, &[FIRST, TAKEN | 1], OutOfTurn, 2, 1);
    refuses(
        &rt,
        &[FIRST, TAKEN | 1, SUM, VAR, VAR, END],
        OutOfTurn,
        2,
        1,
    );
    refuses(&rt, &[FIRST, TAKEN, GUARD, CONST, END], OutOfTurn, 4, 1);
    refuses(
        &rt,
        &[FIRST, TAKEN, BODY | 1, SUM, CONST, END],
        OutOfTurn,
        5,
        1,
    );
    refuses(
        &rt,
        &[FIRST, TAKEN, BODY | 1, DIFF, SUM, CONST, CONST, CONST, END],
        OutOfTurn,
        4,
        1,
    );
}

#[test]
fn stray_bits(rt: HostRuntime) {
    refuses(&rt, &[END | 1], StrayBit, 0, 0);
    refuses(&rt, &[RULE | 0x1_0001, TAKEN, END], StrayBit, 0, 1);
    for word in [
        KEPT | 0x10,
        KEPT | 0x100_0000,
        TAKEN | 0x8000,
        TAKEN | 0x800_0000,
    ] {
        refuses(&rt, &[FIRST, word, END], StrayBit, 1, 1);
    }
    for word in [GUARD | 0x10, BODY | 0x8000, TAKEN | 0x10, END | 0x800_0000] {
        refuses(&rt, &[FIRST, TAKEN, word, END], StrayBit, 2, 1);
    }
    refuses(&rt, &[FIRST, TAKEN, RULE | 0x1_0002, END], StrayBit, 2, 2);
    for word in [VAR | 0x10, SUM | 1, DIFF | 0x800_0000] {
        refuses(
            &rt,
            &[FIRST, TAKEN, BODY | 1, word, CONST, CONST, END],
            StrayBit,
            3,
            1,
        );
    }
}
