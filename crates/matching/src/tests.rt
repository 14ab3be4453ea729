use crate::{Ends, Verdict, body_count, body_fact, head_fits_at, judge};
use arrayvec::ArrayVec;
use facts::ReadFact;
use grammar::{Args, Atom, Guard, Head, Operand, Rule, RuleParts, Term, Test};
use std::fmt::Debug;
use std::test::Fail;

const LOW: i32 = -134_217_728;

const HIGH: i32 = 134_217_727;

const ENDS: Ends = Ends {
    low: LOW,
    high: HIGH,
};

const A: Operand = Operand::Var(0);

const B: Operand = Operand::Var(1);

const C: Operand = Operand::Var(2);

fn fact(name: u8, count: u8, args: (i32, i32, i32)) -> ReadFact {
    ReadFact { name, count, args }
}

fn fill(channel: i32, time: i32) -> ReadFact {
    fact(1, 2, (channel, time, 77))
}

fn pair(a: i32, b: i32) -> ReadFact {
    fact(2, 2, (a, b, LOW))
}

// A head with two operands.
fn head(name: u8, first: Operand, second: Operand) -> Head {
    Atom {
        name,
        args: Args::Two(first, second),
    }
}

// One part of a rule.
fn one<T: Copy + Default + Debug, const N: usize>(part: T) -> Result<ArrayVec<T, N>, Fail> {
    let mut parts = ArrayVec::new();
    parts.try_push(part)?;
    Ok(parts)
}

// Kept fill(C, A), taken fill(C, B), A at most B.
fn rule_seven() -> Result<Rule, Fail> {
    Ok(Rule {
        label: 7,
        kept: one(head(1, C, A))?,
        taken: one(head(1, C, B))?,
        guards: one(Guard {
            test: Test::AtMost,
            left: Term::One(A),
            right: Term::One(B),
        })?,
        body: ArrayVec::new(),
    })
}

// Taken pair(A, B), under a guard, to late(the term).
fn pair_rule(guard: Guard, term: Term) -> Result<Rule, Fail> {
    Ok(Rule {
        label: 8,
        kept: ArrayVec::new(),
        taken: one(head(2, A, B))?,
        guards: one(guard)?,
        body: one(Atom {
            name: 9,
            args: Args::One(term),
        })?,
    })
}

#[test]
fn chosen_facts(rt: HostRuntime) -> Result<(), Fail> {
    let rule = rule_seven()?;
    let junk = fact(1, 2, (3, 84, i32::MIN));
    let named = fact(2, 2, (3, 84, 77));
    let counted = fact(1, 3, (3, 90, 77));
    let rows = [
        (fill(3, 84), fill(3, 90), Verdict::Applies),
        (fill(3, 84), fill(3, 84), Verdict::Applies),
        (junk, fill(3, 90), Verdict::Applies),
        (fill(3, 90), fill(3, 84), Verdict::NoMatch),
        (fill(3, 84), fill(4, 90), Verdict::NoMatch),
        (named, fill(3, 90), Verdict::NoMatch),
        (fill(3, 84), counted, Verdict::NoMatch),
    ];
    for (first, second, verdict) in rows {
        assert_eq!(rt; judge(rule.parts(), &[first, second], ENDS), verdict);
    }
    assert_eq!(rt; judge(rule.parts(), &[fill(3, 84)], ENDS), Verdict::NoMatch);
    assert_eq!(rt;
        judge(rule.parts(), &[fill(3, 84); 3], ENDS),
        Verdict::NoMatch
    );
    Ok(())
}

#[test]
fn positions(rt: HostRuntime) -> Result<(), Fail> {
    let rule = rule_seven()?;
    let rows = [
        (0, fill(1, 2), true),
        (1, fill(1, 2), true),
        (2, fill(1, 2), false),
        (0, pair(1, 2), false),
        (1, fact(1, 4, (1, 2, 3)), false),
    ];
    for (position, fact, fits) in rows {
        assert_eq!(rt; head_fits_at(rule.parts(), position, &fact), fits);
    }
    Ok(())
}

#[test]
fn guards(rt: HostRuntime) -> Result<(), Fail> {
    let rows = [
        (Test::Equal, pair(4, 9), Verdict::Applies),
        (Test::Equal, pair(4, 8), Verdict::NoMatch),
        (Test::NotEqual, pair(4, 8), Verdict::Applies),
        (Test::NotEqual, pair(4, 9), Verdict::NoMatch),
        (Test::Less, pair(4, 10), Verdict::Applies),
        (Test::Less, pair(4, 9), Verdict::NoMatch),
        (Test::AtMost, pair(4, 9), Verdict::Applies),
        (Test::AtMost, pair(4, 8), Verdict::NoMatch),
        (Test::Less, pair(HIGH, HIGH), Verdict::NoMatch),
        (Test::Less, pair(LOW, LOW), Verdict::Applies),
        (Test::Less, pair(i32::MAX, i32::MIN), Verdict::NoMatch),
    ];
    for (test, fact, verdict) in rows {
        let guard = Guard {
            test,
            left: Term::Sum(A, A),
            right: Term::Diff(B, Operand::Const(1)),
        };
        let rule = pair_rule(guard, Term::One(A))?;
        assert_eq!(rt; judge(rule.parts(), &[fact], ENDS), verdict);
    }
    Ok(())
}

#[test]
fn body_values(rt: HostRuntime) -> Result<(), Fail> {
    let up = Term::Sum(A, Operand::Const(1));
    let down = Term::Diff(A, Operand::Const(1));
    let rows = [
        (up, HIGH - 1, Verdict::Applies, HIGH),
        (up, HIGH, Verdict::OutsideEnds, HIGH),
        (down, LOW + 1, Verdict::Applies, LOW),
        (down, LOW, Verdict::OutsideEnds, LOW),
        (Term::Sum(A, A), i32::MAX, Verdict::OutsideEnds, HIGH),
        (Term::Sum(A, A), i32::MIN, Verdict::OutsideEnds, LOW),
    ];
    let always = Guard {
        test: Test::Equal,
        left: Term::One(A),
        right: Term::One(A),
    };
    for (term, number, verdict, written) in rows {
        let rule = pair_rule(always, term)?;
        let chosen = [pair(number, 0)];
        assert_eq!(rt; judge(rule.parts(), &chosen, ENDS), verdict);
        let fact = body_fact(rule.parts(), &chosen, ENDS, 0).ok_or("no fact")?;
        assert_eq!(rt; (fact.name, fact.count, fact.args.0), (9, 1, written));
        assert_eq!(rt; body_count(rule.parts()), 1);
        assert!(rt; body_fact(rule.parts(), &chosen, ENDS, 1).is_none());
    }
    Ok(())
}

#[test]
fn ends(rt: HostRuntime) {
    let rows = [
        (i64::from(LOW) - 1, false, LOW),
        (i64::from(LOW), true, LOW),
        (5, true, 5),
        (i64::from(HIGH), true, HIGH),
        (i64::from(HIGH) + 1, false, HIGH),
    ];
    for (number, held, nearest) in rows {
        assert_eq!(rt; ENDS.hold(number), held);
        assert_eq!(rt; ENDS.nearest(number), nearest);
    }
}

#[test]
fn operands(rt: HostRuntime) -> Result<(), Fail> {
    let rows = [
        (A, A, pair(5, 5), Verdict::Applies),
        (A, A, pair(5, 6), Verdict::NoMatch),
        (Operand::Const(LOW), B, pair(LOW, 1), Verdict::Applies),
        (Operand::Const(LOW), B, pair(HIGH, 1), Verdict::NoMatch),
        (Operand::Var(8), B, pair(0, 1), Verdict::Applies),
        (Operand::Var(8), B, pair(1, 1), Verdict::NoMatch),
        (
            Operand::Var(7),
            Operand::Var(7),
            pair(3, 4),
            Verdict::NoMatch,
        ),
    ];
    for (first, second, fact, verdict) in rows {
        let rule = Rule {
            label: 9,
            kept: ArrayVec::new(),
            taken: one(head(2, first, second))?,
            guards: ArrayVec::new(),
            body: ArrayVec::new(),
        };
        assert_eq!(rt; judge(rule.parts(), &[fact], ENDS), verdict);
    }
    Ok(())
}

#[test]
fn any_number_of_parts(rt: HostRuntime) {
    let body = [Atom {
        name: 9,
        args: Args::One(Term::One(B)),
    }; 5];
    let rule = RuleParts {
        label: 10,
        kept: &[head(2, A, B); 4],
        taken: &[head(2, A, B); 5],
        guards: &[],
        body: &body,
    };
    assert_eq!(rt; judge(rule, &[pair(1, 2); 9], ENDS), Verdict::Applies);
    assert_eq!(rt; judge(rule, &[pair(1, 2); 8], ENDS), Verdict::NoMatch);
    assert!(rt; head_fits_at(rule, 8, &pair(3, 4)));
    assert!(rt; !head_fits_at(rule, 9, &pair(3, 4)));
    assert_eq!(rt; body_count(rule), 5);
    let last = body_fact(rule, &[pair(1, 2); 9], ENDS, 4);
    assert!(rt; last.is_some_and(|fact| fact.args.0 == 2));
}
