ghost use Rattle.std.specs.Prelude.{◌≡◌, ℕ, ◌+◌, ◌≤◌, List};
ghost use Rattle.grammar.specs.Reading.{Parsed, read_guard, read_atom};
ghost use Rattle.rules.specs.Progress.{Gives};

use crate::fault::Fault;
use crate::read::{Argument, read_args, read_term};
use facts::MOST_ARGS;
use grammar::{Atom, Guard, Reason, Test};
use words::Word;

// A part of a rule, read after its first word.
pub(crate) trait Part: Copy {
    ghost reads: { ℕ → List ℕ → Parsed Self };

    fn read_rest(first: Word, ws: &[u32]) -> Result<(Self, &[u32]), Fault>
        ensures { Gives (reads first.payload ws.now) result };
}

impl<A: Argument> Part for Atom<A> {
    ghost reads = { read_atom A.Argument.reads };

    fn read_rest(first: Word, ws: &[u32]) -> Result<(Atom<A>, &[u32]), Fault> {
        let count = first.count();
        Fault::unless(count <= MOST_ARGS, Reason::OutOfRange, ws.len() + 1)?;
        let (args, rest) = read_args(count, ws)?;
        let name = first.name();
        Ok((Atom { name, args }, rest))
    }
}

impl Part for Guard {
    ghost reads = { read_guard };

    fn read_rest(first: Word, ws: &[u32]) -> Result<(Guard, &[u32]), Fault> {
        let left = ws.len() + 1;
        let test = Test::try_from(first.count()).map_err(|_| Fault::out_of_range(left))?;
        let (left, rest) = read_term(ws)?;
        let (right, rest) = read_term(rest)?;
        Ok((Guard { test, left, right }, rest))
    }
}
