ghost use Rattle.std.specs.Prelude.{◌+◌, ◌≤◌, OnOk, IfOk};
ghost use Rattle.arrayvec.specs.ArrayVec.{array_vec_len};
ghost use Rattle.words.specs.Words.{tag};
ghost use Rattle.grammar.specs.Reading.{read_parts};
ghost use Rattle.rules.specs.Progress.{GivesAs, Adds};

use crate::fault::Fault;
use crate::part::Part;
use crate::read::first_rest;
use arrayvec::ArrayVec;
use grammar::Reason;
use words::{Kind, Word};

// Puts the parts of one kind that stand next after those read before, `room` more at most.
// A form of the project: words are taken apart as first word and rest, until END; `room` is what is left, no index.
fn read_more<'a, P: Part, const N: usize>(
    parts: &mut ArrayVec<P, N>,
    kind: Kind,
    room: usize,
    ws: &'a [u32],
) -> Result<&'a [u32], Fault>
    requires { array_vec_len parts.old + room ≤ N }
    ensures reads { Adds parts.old.items (read_parts P.Part.reads (tag kind) room ws.now) parts.new.items result }
    ensures few { OnOk result (array_vec_len parts.new ≤ array_vec_len parts.old + room) }
{
    let left = ws.len();
    let Some((first, after)) = first_rest(ws) else {
        return Ok(ws);
    };
    let word = Word::from(first);
    if !word.is(kind) {
        return Ok(ws);
    }
    Fault::unless(word.is_clean(), Reason::StrayBit, left)?;
    Fault::unless(room > 0, Reason::OutOfRange, left)?;
    let (part, next) = P::read_rest(word, after)?;
    parts.push(part);
    read_more(parts, kind, room - 1, next)
}

// The parts of one kind that stand next, `room` at most.
pub(crate) fn read_parts<P: Part + Default, const N: usize>(
    kind: Kind,
    room: usize,
    ws: &[u32],
) -> Result<(ArrayVec<P, N>, &[u32]), Fault>
    requires { room ≤ N }
    ensures reads { GivesAs (λ parts. parts.items) (read_parts P.Part.reads (tag kind) room ws.now) result }
    ensures few { IfOk result (λ x. array_vec_len x.0 ≤ room) }
{
    let mut parts = ArrayVec::new();
    let rest = read_more(&mut parts, kind, room, ws)?;
    Ok((parts, rest))
}
