ghost use Rattle.std.specs.Prelude.{◌≡◌, ℕ, ◌≤◌, List, [], ◌∷◌, MatchOption};
ghost use Rattle.grammar.specs.Reading.{Parsed, read_operand, read_pair, read_term, read_args};
ghost use Rattle.rules.specs.Progress.{Gives};

use crate::fault::Fault;
use grammar::{Args, LAST_VAR, Operand, Reason, Term};
use words::{Kind, Word};

// The first word and the rest.
pub(crate) fn first_rest(ws: &[u32]) -> Option<(u32, &[u32])>
    ensures { MatchOption result (ws.now ≡ []) (λ x. ws.now ≡ x.0 ∷ x.1.now) }
{
    match ws {
        [] => None,
        [first, rest @ ..] => Some((*first, rest)),
    }
}

fn read_operand(ws: &[u32]) -> Result<(Operand, &[u32]), Fault>
    ensures { Gives (read_operand ws.now) result }
{
    let left = ws.len();
    let (first, rest) = first_rest(ws).ok_or(Fault::out_of_turn(left))?;
    let word = Word::from(first);
    match word.kind {
        Kind::Var => {
            Fault::unless(word.is_clean(), Reason::StrayBit, left)?;
            let variable = word.count();
            Fault::unless(variable <= LAST_VAR, Reason::OutOfRange, left)?;
            Ok((Operand::Var(variable), rest))
        }
        Kind::Const => {
            Fault::unless(word.is_clean(), Reason::StrayBit, left)?;
            Ok((Operand::Const(word.constant()), rest))
        }
        _ => Err(Fault::out_of_turn(left)),
    }
}

// Two operands, one after the other.
fn read_pair(ws: &[u32]) -> Result<((Operand, Operand), &[u32]), Fault>
    ensures { Gives (read_pair ws.now) result }
{
    let (a, rest) = read_operand(ws)?;
    let (b, rest) = read_operand(rest)?;
    Ok(((a, b), rest))
}

pub(crate) fn read_term(ws: &[u32]) -> Result<(Term, &[u32]), Fault>
    ensures { Gives (read_term ws.now) result }
{
    let left = ws.len();
    let (first, rest) = first_rest(ws).ok_or(Fault::out_of_turn(left))?;
    let word = Word::from(first);
    match word.kind {
        Kind::Sum => {
            Fault::unless(word.is_clean(), Reason::StrayBit, left)?;
            let ((a, b), rest) = read_pair(rest)?;
            Ok((Term::Sum(a, b), rest))
        }
        Kind::Diff => {
            Fault::unless(word.is_clean(), Reason::StrayBit, left)?;
            let ((a, b), rest) = read_pair(rest)?;
            Ok((Term::Diff(a, b), rest))
        }
        _ => {
            let (a, rest) = read_operand(ws)?;
            Ok((Term::One(a), rest))
        }
    }
}

// What a head or a body fact has as arguments.
pub(crate) trait Argument: Copy {
    ghost reads: { List ℕ → Parsed Self };

    fn read(ws: &[u32]) -> Result<(Self, &[u32]), Fault>
        ensures { Gives (reads ws.now) result };
}

impl Argument for Operand {
    ghost reads = { read_operand };

    fn read(ws: &[u32]) -> Result<(Operand, &[u32]), Fault> {
        read_operand(ws)
    }
}

impl Argument for Term {
    ghost reads = { read_term };

    fn read(ws: &[u32]) -> Result<(Term, &[u32]), Fault> {
        read_term(ws)
    }
}

// That many arguments, at most three.
pub(crate) fn read_args<A: Argument>(count: u8, ws: &[u32]) -> Result<(Args<A>, &[u32]), Fault>
    ensures { Gives (read_args A.Argument.reads count ws.now) result }
{
    if count == 0 {
        return Ok((Args::Zero, ws));
    }
    let (a, rest) = A::read(ws)?;
    if count == 1 {
        return Ok((Args::One(a), rest));
    }
    let (b, rest) = A::read(rest)?;
    if count == 2 {
        return Ok((Args::Two(a, b), rest));
    }
    let (c, rest) = A::read(rest)?;
    Ok((Args::Three(a, b, c), rest))
}
