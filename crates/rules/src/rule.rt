ghost use Rattle.std.specs.Prelude.{◌+◌, ◌≤◌, map};
ghost use Rattle.arrayvec.specs.ArrayVec.{array_vec_len};
ghost use Rattle.grammar.specs.declared.limits.TheConstants.{MOST_RULES};
ghost use Rattle.grammar.specs.Parts.{parts};
ghost use Rattle.grammar.specs.Writing.{standard};
ghost use Rattle.grammar.specs.Reading.{read_rule, read_rules};
ghost use Rattle.rules.specs.Progress.{GivesAs, Adds};

use crate::fault::Fault;
use crate::parts::read_parts;
use crate::read::first_rest;
use arrayvec::ArrayVec;
use grammar::{MOST_BODY, MOST_GUARDS, MOST_HEADS, MOST_RULES, Reason, Rule};
use words::{Kind, Word};

// The rest of a rule, given its label.
fn read_rule(label: u16, ws: &[u32]) -> Result<(Rule, &[u32]), Fault>
    ensures { GivesAs parts (read_rule standard label ws.now) result }
{
    let (kept, rest) = read_parts(Kind::Kept, MOST_HEADS, ws)?;
    let (taken, rest) = read_parts(Kind::Taken, MOST_HEADS - kept.len(), rest)?;
    if kept.len() + taken.len() == 0 {
        return Err(Fault::out_of_turn(rest.len()));
    }
    let (guards, rest) = read_parts(Kind::Guard, MOST_GUARDS, rest)?;
    let (body, rest) = read_parts(Kind::Body, MOST_BODY, rest)?;
    Ok((
        Rule {
            label,
            kept,
            taken,
            guards,
            body,
        },
        rest,
    ))
}

// Puts the rules up to END after those read before, `room` more at most; gives the words after END.
// A form of the project: words are taken apart as first word and rest, until END; `room` is what is left, no index.
// The rules are lent and not given back: a vector of fixed capacity is copied whole when it is moved.
pub(crate) fn read_rules<'a>(
    rules: &mut ArrayVec<Rule, MOST_RULES>,
    room: usize,
    ws: &'a [u32],
) -> Result<&'a [u32], Fault>
    requires { array_vec_len rules.old + room ≤ MOST_RULES }
    ensures { Adds (map parts rules.old.items) (read_rules standard room ws.now) (map parts rules.new.items) result }
{
    let left = ws.len();
    let (first, after) = first_rest(ws).ok_or(Fault::out_of_turn(left))?;
    let word = Word::from(first);
    match word.kind {
        Kind::End => {
            Fault::unless(word.is_clean(), Reason::StrayBit, left)?;
            Ok(after)
        }
        Kind::Rule => {
            Fault::unless(word.is_clean(), Reason::StrayBit, left)?;
            Fault::unless(room > 0, Reason::OutOfRange, left)?;
            let (rule, next) = read_rule(word.label(), after)?;
            rules.push(rule);
            read_rules(rules, room - 1, next)
        }
        _ => Err(Fault::out_of_turn(left)),
    }
}
