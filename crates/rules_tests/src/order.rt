// Which of several faults is told.
use crate::outcome::*;

#[test]
fn the_leftmost_word_decides(rt: HostRuntime) {
    refuses(&rt, &[FIRST, TAKEN | 0x10, 0, END], StrayBit, 1, 1);
    refuses(&rt, &[FIRST, TAKEN, 0, END | 1], OutOfTurn, 2, 1);
    refuses(&rt, &[FIRST, TAKEN | 4, 0, END | 1], OutOfRange, 1, 1);
    refuses(&rt, &[FIRST, TAKEN | 0x10], StrayBit, 1, 1);
}

#[test]
fn one_word_with_several_faults(rt: HostRuntime) {
    refuses(&rt, &[FIRST, TAKEN | 0x14, END], StrayBit, 1, 1);
    refuses(&rt, &[FIRST, TAKEN | 1, VAR | 0x18, END], StrayBit, 2, 1);
    refuses(
        &rt,
        &[FIRST, TAKEN, TAKEN, TAKEN, TAKEN | 0x10, END],
        StrayBit,
        4,
        1,
    );
    refuses(&rt, &[FIRST, VAR | 0x18, END], OutOfTurn, 1, 1);
    refuses(
        &rt,
        &[FIRST, TAKEN, TAKEN, TAKEN, KEPT | 4, END],
        OutOfTurn,
        4,
        1,
    );
}

#[test]
fn words_before_rules(rt: HostRuntime) {
    let words = [
        RULE,
        KEPT,
        BODY | 1,
        VAR,
        RULE | 2,
        TAKEN,
        RULE | 3,
        TAKEN | 4,
        END,
    ];
    refuses(&rt, &words, OutOfRange, 7, 3);
    refuses(&rt, &words[0..6], OutOfTurn, 6, 2);
}

#[test]
fn rule_by_rule(rt: HostRuntime) {
    refuses(
        &rt,
        &[RULE, TAKEN, FIRST, TAKEN, BODY | 1, VAR, END],
        Label,
        0,
        1,
    );
    refuses(
        &rt,
        &[FIRST, KEPT, RULE | 2, TAKEN, BODY | 1, VAR, END],
        NoTaken,
        0,
        1,
    );
    refuses(
        &rt,
        &[RULE, KEPT, GUARD, CONST, VAR | 1, END],
        Unbound,
        4,
        1,
    );
    refuses(&rt, &[RULE, KEPT, END], NoTaken, 0, 1);
    refuses(&rt, &[RULE | 2, TAKEN, FIRST, KEPT, END], NoTaken, 2, 2);
}

// A variable counts as bound by the heads of its own rule, kept and taken.
#[test]
fn bound_variables(rt: HostRuntime) {
    loads(
        &rt,
        &[
            FIRST,
            KEPT | 1,
            VAR | 2,
            TAKEN | 1,
            VAR | 3,
            GUARD,
            VAR | 2,
            VAR | 3,
            END,
        ],
        1,
        9,
    );
    refuses(
        &rt,
        &[
            FIRST,
            TAKEN | 1,
            VAR | 2,
            RULE | 2,
            TAKEN | 1,
            VAR | 3,
            BODY | 1,
            VAR | 2,
            END,
        ],
        Unbound,
        7,
        2,
    );
}

#[test]
fn the_first_unbound_variable(rt: HostRuntime) {
    refuses(
        &rt,
        &[
            FIRST,
            TAKEN | 1,
            VAR | 2,
            BODY | 1,
            SUM,
            VAR | 2,
            VAR | 4,
            BODY | 1,
            VAR | 5,
            END,
        ],
        Unbound,
        6,
        1,
    );
    refuses(
        &rt,
        &[FIRST, TAKEN | 1, CONST | 2, BODY | 1, VAR | 2, END],
        Unbound,
        4,
        1,
    );
}

#[test]
fn numbers_of_faults(rt: HostRuntime) {
    for (fault, number) in [
        (OutOfTurn, 10),
        (StrayBit, 11),
        (OutOfRange, 12),
        (Unbound, 13),
        (NoTaken, 14),
        (Label, 15),
    ] {
        assert_eq!(rt; u32::from(fault), number);
    }
}
