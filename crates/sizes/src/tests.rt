use crate::{heads_size, rule_size};
use grammar::{Args, Atom, Guard, Operand, Rule, Term, Test};
use std::test::Fail;

const A: Operand = Operand::Var(0);

const B: Operand = Operand::Var(1);

// Kept 1(A, B), taken 2(A); if 90 < A - B; adds 3 and 4(A, B + 1).
fn rule() -> Result<Rule, Fail> {
    let mut rule = Rule::default();
    rule.kept.try_push(Atom {
        name: 1,
        args: Args::Two(A, B),
    })?;
    rule.taken.try_push(Atom {
        name: 2,
        args: Args::One(A),
    })?;
    rule.guards.try_push(Guard {
        test: Test::Less,
        left: Term::One(Operand::Const(90)),
        right: Term::Diff(A, B),
    })?;
    rule.body.try_push(Atom {
        name: 3,
        args: Args::Zero,
    })?;
    rule.body.try_push(Atom {
        name: 4,
        args: Args::Two(Term::One(A), Term::Sum(B, Operand::Const(1))),
    })?;
    Ok(rule)
}

// RULE and the heads are 1 + 3 + 2 words; the guard is 5, the body facts 1 and 5.
#[test]
fn words_of_a_rule(rt: HostRuntime) -> Result<(), Fail> {
    assert_eq!(rt; heads_size(&Rule::default()), 1);
    assert_eq!(rt; rule_size(&Rule::default()), 1);
    let rule = rule()?;
    assert_eq!(rt; heads_size(&rule), 6);
    assert_eq!(rt; rule_size(&rule), 17);
    Ok(())
}
