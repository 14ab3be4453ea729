use crate::{Begun, Filling, Guarding, Refusal, Refused, TableWriter, Taking, write_table};
use grammar::{Args, BodyFact, Guard, Head, Operand, Term, Test};
use rules::load;
use std::test::Fail;

const A: Operand = Operand::Var(0);

const B: Operand = Operand::Var(1);

const C: Operand = Operand::Var(2);

const FREE: Operand = Operand::Var(7);

const TOO_LARGE: Operand = Operand::Var(8);

const NOTHING: Head = Head {
    name: 0,
    args: Args::Zero,
};

const ALWAYS: Guard = Guard {
    test: Test::Equal,
    left: Term::One(Operand::Const(0)),
    right: Term::One(Operand::Const(0)),
};

const SAMPLE: [u32; 12] = [
    0x1000_0007,
    0x2001_0002,
    0x6000_0000,
    0x6000_0001,
    0x3001_0002,
    0x6000_0000,
    0x6000_0002,
    0x4000_0003,
    0x6000_0001,
    0x6000_0002,
    0xF000_0000,
    5,
];

fn fill(a: Operand, b: Operand) -> Head {
    Head {
        name: 1,
        args: Args::Two(a, b),
    }
}

fn at_most(a: Operand, b: Operand) -> Guard {
    Guard {
        test: Test::AtMost,
        left: Term::One(a),
        right: Term::One(b),
    }
}

fn late(a: Operand) -> BodyFact {
    BodyFact {
        name: 2,
        args: Args::One(Term::Sum(a, Operand::Const(-1))),
    }
}

fn begun(memory: &mut [u32], label: u16) -> Result<Begun, Refusal> {
    match TableWriter::new().begin(memory, label) {
        Ok((rule, _)) => Ok(rule),
        Err(
            Refused {
                state: table,
                why,
                used: _,
            },
        ) => {
            let _ = table.give_up();
            Err(why)
        }
    }
}

fn taken(rule: Begun, memory: &mut [u32], head: Head) -> Result<Taking, Refusal> {
    match rule.take(memory, head) {
        Ok((rule, _)) => Ok(rule),
        Err(
            Refused {
                state: rule,
                why,
                used: _,
            },
        ) => {
            let _ = rule.give_up();
            Err(why)
        }
    }
}

fn guarded(rule: Taking, memory: &mut [u32], guard: Guard) -> Result<Guarding, Refusal> {
    match rule.guard(memory, guard) {
        Ok((rule, _)) => Ok(rule),
        Err(
            Refused {
                state: rule,
                why,
                used: _,
            },
        ) => {
            let (table, _) = rule.close();
            let _ = table.give_up();
            Err(why)
        }
    }
}

// Rule 7: kept fill(A, B), taken fill(A, C), B at most C.
fn sample(memory: &mut [u32]) -> Result<usize, Refusal> {
    let rule = match begun(memory, 7)?.keep(memory, fill(A, B)) {
        Ok((rule, _)) => rule,
        Err(
            Refused {
                state: rule,
                why,
                used: _,
            },
        ) => {
            let _ = rule.give_up();
            return Err(why);
        }
    };
    let rule = taken(rule, memory, fill(A, C))?;
    let rule = guarded(rule, memory, at_most(B, C))?;
    let (table, _) = rule.close();
    match table.end(memory) {
        Ok(words) => Ok(words),
        Err(
            Refused {
                state: table,
                why,
                used: _,
            },
        ) => {
            let _ = table.give_up();
            Err(why)
        }
    }
}

#[test]
fn exactly_long_enough_and_one_short(rt: HostRuntime) {
    let mut memory = [5; 12];
    assert_eq!(rt; sample(&mut memory[0..11]), Ok(11));
    assert_eq!(rt; memory, SAMPLE);
    let mut short = [5; 10];
    assert_eq!(rt; sample(&mut short), Err(Refusal::NoRoom));
    assert_eq!(rt; short[9], SAMPLE[9]);
}

// The first words of the sample, then what stood in the memory.
fn first_words(count: usize) -> [u32; 12] {
    let mut words = [5; 12];
    for i in 0..12 {
        if i < count {
            words[i] = SAMPLE[i];
        }
    }
    words
}

// In a memory of every length below, some call is one word or more short: it is refused, and puts no word.
#[test]
fn in_shorter_memory(rt: HostRuntime) {
    for (length, written) in [
        (0, 0),
        (1, 1),
        (3, 1),
        (4, 4),
        (6, 4),
        (7, 7),
        (9, 7),
        (10, 10),
    ] {
        let mut short = [5; 12];
        assert_eq!(rt;
            sample(&mut short[0..12usize.min(length)]),
            Err(Refusal::NoRoom)
        );
        assert_eq!(rt; short, first_words(written));
    }
}

fn kept(rule: Begun, memory: &mut [u32]) -> Result<Begun, Refusal> {
    match rule.keep(memory, NOTHING) {
        Ok((rule, _)) => Ok(rule),
        Err(
            Refused {
                state: rule,
                why,
                used: _,
            },
        ) => {
            let _ = rule.give_up();
            Err(why)
        }
    }
}

fn more_taken(rule: Taking, memory: &mut [u32]) -> Result<Taking, Refusal> {
    match rule.take(memory, NOTHING) {
        Ok((rule, _)) => Ok(rule),
        Err(
            Refused {
                state: rule,
                why,
                used: _,
            },
        ) => {
            let (table, _) = rule.close();
            let _ = table.give_up();
            Err(why)
        }
    }
}

fn more_guards(rule: Guarding, memory: &mut [u32]) -> Result<Guarding, Refusal> {
    match rule.guard(memory, ALWAYS) {
        Ok((rule, _)) => Ok(rule),
        Err(
            Refused {
                state: rule,
                why,
                used: _,
            },
        ) => {
            let (table, _) = rule.close();
            let _ = table.give_up();
            Err(why)
        }
    }
}

// Two kept heads and one more taken, or three and one more.
fn kept_heads(memory: &mut [u32], third: bool) -> Result<usize, Refusal> {
    let rule = begun(memory, 1)?;
    let rule = kept(rule, memory)?;
    let rule = kept(rule, memory)?;
    let rule = if third { kept(rule, memory)? } else { rule };
    let rule = taken(rule, memory, NOTHING)?;
    let (table, words) = rule.close();
    let _ = table.give_up();
    Ok(words)
}

// Three taken heads, or four.
fn taken_heads(memory: &mut [u32], fourth: bool) -> Result<usize, Refusal> {
    let rule = begun(memory, 1)?;
    let rule = taken(rule, memory, NOTHING)?;
    let rule = more_taken(rule, memory)?;
    let rule = more_taken(rule, memory)?;
    let rule = if fourth {
        more_taken(rule, memory)?
    } else {
        rule
    };
    let (table, words) = rule.close();
    let _ = table.give_up();
    Ok(words)
}

// Four guards, or five.
fn guards(memory: &mut [u32], fifth: bool) -> Result<usize, Refusal> {
    let rule = begun(memory, 1)?;
    let rule = taken(rule, memory, NOTHING)?;
    let rule = guarded(rule, memory, ALWAYS)?;
    let rule = more_guards(rule, memory)?;
    let rule = more_guards(rule, memory)?;
    let rule = more_guards(rule, memory)?;
    let rule = if fifth {
        more_guards(rule, memory)?
    } else {
        rule
    };
    let (table, words) = rule.close();
    let _ = table.give_up();
    Ok(words)
}

#[test]
fn heads_and_guards_at_their_most(rt: HostRuntime) {
    let mut memory = [0; 20];
    assert_eq!(rt; kept_heads(&mut memory, false), Ok(4));
    assert_eq!(rt; kept_heads(&mut memory, true), Err(Refusal::OutOfRange));
    assert_eq!(rt; taken_heads(&mut memory, false), Ok(4));
    assert_eq!(rt; taken_heads(&mut memory, true), Err(Refusal::OutOfRange));
    assert_eq!(rt; guards(&mut memory, false), Ok(14));
    assert_eq!(rt; guards(&mut memory, true), Err(Refusal::OutOfRange));
}

fn one_head(operand: Operand) -> Result<usize, Refusal> {
    let mut memory = [0; 8];
    let rule = begun(&mut memory, 1)?;
    let rule = taken(rule, &mut memory, fill(A, operand))?;
    let (table, words) = rule.close();
    let _ = table.give_up();
    Ok(words)
}

#[test]
fn numbers_at_their_ends(rt: HostRuntime) {
    assert_eq!(rt; one_head(FREE), Ok(4));
    assert_eq!(rt; one_head(TOO_LARGE), Err(Refusal::OutOfRange));
    assert_eq!(rt; one_head(Operand::Const(134_217_727)), Ok(4));
    assert_eq!(rt;
        one_head(Operand::Const(134_217_728)),
        Err(Refusal::OutOfRange)
    );
    assert_eq!(rt; one_head(Operand::Const(-134_217_728)), Ok(4));
    assert_eq!(rt;
        one_head(Operand::Const(-134_217_729)),
        Err(Refusal::OutOfRange)
    );
}

fn one_guard(memory: &mut [u32], guard: Guard) -> Result<usize, Refusal> {
    let rule = begun(memory, 1)?;
    let rule = taken(rule, memory, fill(A, B))?;
    let rule = guarded(rule, memory, guard)?;
    let (table, words) = rule.close();
    let _ = table.give_up();
    Ok(words)
}

#[test]
fn refusals_in_rising_order(rt: HostRuntime) {
    let mut short = [0; 4];
    assert_eq!(rt;
        one_guard(&mut short, at_most(FREE, TOO_LARGE)),
        Err(Refusal::OutOfRange)
    );
    assert_eq!(rt;
        one_guard(&mut short, at_most(FREE, B)),
        Err(Refusal::UnboundVariable)
    );
    assert_eq!(rt; one_guard(&mut short, at_most(A, B)), Err(Refusal::NoRoom));
    let mut memory = [0; 7];
    assert_eq!(rt; one_guard(&mut memory, at_most(A, B)), Ok(7));
}

fn next_rule(table: TableWriter, memory: &mut [u32], label: u16) -> Result<TableWriter, Refusal> {
    match table.begin(memory, label) {
        Ok((rule, _)) => {
            let rule = taken(rule, memory, NOTHING)?;
            let (table, _) = rule.close();
            Ok(table)
        }
        Err(
            Refused {
                state: table,
                why,
                used: _,
            },
        ) => {
            let _ = table.give_up();
            Err(why)
        }
    }
}

// Rules labelled from here on, until one is refused.
fn rules_from(mut table: TableWriter, memory: &mut [u32], first: u16) -> (u16, Option<Refusal>) {
    for label in first..40 {
        table = match next_rule(table, memory, label) {
            Ok(table) => table,
            Err(refusal) => return (label, Some(refusal)),
        };
    }
    let _ = table.give_up();
    (40, None)
}

#[test]
fn labels_and_rules(rt: HostRuntime) -> Result<(), Fail> {
    let mut memory = [0; 70];
    assert_eq!(rt;
        rules_from(TableWriter::new(), &mut memory, 0),
        (0, Some(Refusal::LabelOrder))
    );
    assert_eq!(rt;
        rules_from(TableWriter::new(), &mut memory, 1),
        (33, Some(Refusal::OutOfRange))
    );
    let table = next_rule(TableWriter::new(), &mut memory, 9)?;
    assert_eq!(rt;
        rules_from(table, &mut memory, 9),
        (9, Some(Refusal::LabelOrder))
    );
    Ok(())
}

// Body facts, until one is refused.
fn facts_from(mut rule: Filling, memory: &mut [u32], had: u8) -> (u8, Option<Refusal>) {
    for count in had..9 {
        rule = match rule.fill(memory, late(A)) {
            Ok((rule, _)) => rule,
            Err(
                Refused {
                    state: rule,
                    why,
                    used: _,
                },
            ) => {
                let (table, _) = rule.close();
                let _ = table.give_up();
                return (count, Some(why));
            }
        };
    }
    let (table, _) = rule.close();
    let _ = table.give_up();
    (9, None)
}

#[test]
fn amounts(rt: HostRuntime) -> Result<(), Fail> {
    let mut memory = [0; 70];
    let rule = begun(&mut memory, 1)?;
    let rule = taken(rule, &mut memory, fill(A, B))?;
    let (words, last) = match rule.fill(&mut memory, late(A)) {
        Ok((rule, words)) => (words, facts_from(rule, &mut memory, 1)),
        Err(
            Refused {
                state: rule,
                why,
                used: words,
            },
        ) => {
            let (table, _) = rule.close();
            let _ = table.give_up();
            (words, (0, Some(why)))
        }
    };
    assert_eq!(rt; words, 8);
    assert_eq!(rt; last, (3, Some(Refusal::OutOfRange)));
    assert_eq!(rt; (memory[4], memory[5]), (0x5002_0001, 0x8000_0000));
    assert_eq!(rt; (memory[6], memory[7]), (0x6000_0000, 0x7FFF_FFFF));
    Ok(())
}

#[test]
fn loaded_and_written_again(rt: HostRuntime) -> Result<(), Fail> {
    let loaded = load(&SAMPLE)?;
    let mut memory = [5; 12];
    assert_eq!(rt; write_table(&loaded.table, &mut memory[0..11]), Ok(11));
    assert_eq!(rt; memory, SAMPLE);
    let mut short = [5; 10];
    assert_eq!(rt;
        write_table(&loaded.table, &mut short),
        Err(Refusal::NoRoom)
    );
    assert_eq!(rt; short, [5; 10]);
    Ok(())
}
