// What the fields of loaded rules hold.
use crate::outcome::*;
use grammar::{Args, BodyFact, Guard, Head, Operand, Term, Test};
use rules::load;
use std::test::Fail;

// A guard and a body fact with a sum and a difference each.
const SUMS: [u32; 19] = [
    RULE | 65_535,
    TAKEN | 0xFF_0002,
    VAR,
    VAR | 1,
    GUARD | 2,
    SUM,
    VAR,
    CONST | 1,
    DIFF,
    VAR | 1,
    VAR,
    BODY | 0x9_0002,
    DIFF,
    VAR,
    VAR | 1,
    SUM,
    CONST | 2,
    VAR,
    END,
];

#[test]
fn sums_and_differences(rt: HostRuntime) -> Result<(), Fail> {
    let loaded = load(&SUMS)?;
    let rules = loaded.table.rules();
    assert!(rt; rules.len() == 1);
    let rule = &rules[0];
    assert_eq!(rt; rule.label, 65_535);
    assert!(rt; rule.guards.len() == 1);
    assert_eq!(rt;
        rule.guards[0],
        Guard {
            test: Test::Less,
            left: Term::Sum(Operand::Var(0), Operand::Const(1)),
            right: Term::Diff(Operand::Var(1), Operand::Var(0)),
        }
    );
    assert!(rt; rule.body.len() == 1);
    assert_eq!(rt;
        rule.body[0],
        BodyFact {
            name: 9,
            args: Args::Two(
                Term::Diff(Operand::Var(0), Operand::Var(1)),
                Term::Sum(Operand::Const(2), Operand::Var(0)),
            ),
        }
    );
    Ok(())
}

#[test]
fn constants_of_a_head(rt: HostRuntime) -> Result<(), Fail> {
    let words = [
        RULE | 1,
        TAKEN | 0xFF_0003,
        0x77FF_FFFF,
        0x7800_0000,
        0x7FFF_FFFF,
        END,
    ];
    let loaded = load(&words)?;
    let rules = loaded.table.rules();
    assert!(rt; rules.len() == 1);
    let rule = &rules[0];
    assert_eq!(rt; rule.kept.len(), 0);
    assert!(rt; rule.taken.len() == 1);
    assert_eq!(rt;
        rule.taken[0],
        Head {
            name: 255,
            args: Args::Three(
                Operand::Const(134_217_727),
                Operand::Const(-134_217_728),
                Operand::Const(-1),
            ),
        }
    );
    Ok(())
}

#[test]
fn tests_of_guards(rt: HostRuntime) -> Result<(), Fail> {
    for (word, test) in [
        (GUARD, Test::Equal),
        (GUARD | 1, Test::NotEqual),
        (GUARD | 2, Test::Less),
        (GUARD | 3, Test::AtMost),
    ] {
        let loaded = load(&[RULE | 1, TAKEN, word, CONST, CONST, END])?;
        let rules = loaded.table.rules();
        assert!(rt; rules.len() == 1);
        assert!(rt; rules[0].guards.len() == 1);
        assert_eq!(rt; rules[0].guards[0].test, test);
    }
    Ok(())
}
