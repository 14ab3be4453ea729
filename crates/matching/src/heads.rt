ghost use Rattle.std.specs.Prelude.{◌≡◌, true, map, is_some, MatchOption};
ghost use Rattle.std.specs.Iterator.{AlwaysYields};
ghost use Rattle.std.specs.Iterator.Adapters.{chain_steps};
ghost use Rattle.std.specs.Slice.Iter.{iter_steps};
ghost use Rattle.facts.specs.Meanings.{read_meaning};
ghost use Rattle.grammar.specs.Parts.{seen};
ghost use Rattle.matching.specs.Heads.{fits_head, all_fit, met, bind_all, unbound, agree};
ghost use Rattle.matching.specs.Applying.{heads, values, heads_fit};

use crate::values::Values;
use facts::ReadFact;
use grammar::{Head, RuleParts};
use std::iter::Chain;
use std::slice::Iter;

// Whether name and count agree.
pub(crate) fn head_fits(head: &Head, fact: &ReadFact) -> bool
    ensures { result ≡ fits_head head.now (read_meaning fact.now) }
{
    head.name == fact.name && head.args.len() == usize::from(fact.count)
}

// The heads by position: those kept, then those taken.
pub(crate) fn heads(rule: RuleParts<'_>) -> Chain<Iter<'_, Head>, Iter<'_, Head>>
    ensures { AlwaysYields (chain_steps iter_steps iter_steps) (λ h. h.now) result (heads (seen rule.entry)) }
{
    rule.kept.iter().chain(rule.taken.iter())
}

// Gives each variable of the heads the number that it meets, as long as heads and facts fit; whether all of them do.
// Inlined: where the first head does not fit, a call would cost more than the walk.
#[inline(always)]
fn bind_each(heads: &[Head], facts: &[ReadFact], values: &mut Values) -> bool
    ensures fit { result ≡ all_fit heads.now (map read_meaning facts.now) }
    ensures bound { result ≡ true → values.new.numbers ≡ bind_all values.old.numbers (met heads.now (map read_meaning facts.now)) }
{
    if heads.len() != facts.len() {
        return false;
    }
    for (head, fact) in heads.iter().zip(facts) {
        if !head_fits(head, fact) {
            return false;
        }
        values.bind(head, fact);
    }
    true
}

// What the variables mean by facts that fit; none where some fact does not fit.
// Rule and facts stay two parameters, here and below: callers choose facts anew for each rule, and some functions take one.
pub(crate) fn bound(rule: RuleParts<'_>, facts: &[ReadFact]) -> Option<Values>
    ensures fit { is_some result ≡ heads_fit (seen rule.entry) (map read_meaning facts.now) }
    ensures numbers { MatchOption result (values (seen rule.entry) (map read_meaning facts.now) ≡ unbound) (λ v. v.numbers ≡ values (seen rule.entry) (map read_meaning facts.now)) }
{
    let kept = rule.kept.len();
    if facts.len() < kept {
        return None;
    }
    let (front, back) = facts.split_at(kept);
    let mut values = Values::unbound();
    if !bind_each(rule.kept, front, &mut values) {
        return None;
    }
    if !bind_each(rule.taken, back, &mut values) {
        return None;
    }
    Some(values)
}

// Whether each operand of the heads means the number that it meets in facts that fit.
pub(crate) fn agree(rule: RuleParts<'_>, facts: &[ReadFact], values: &Values) -> bool
    requires { heads_fit (seen rule) (map read_meaning facts.now) ≡ true }
    ensures { result ≡ agree values.now.numbers (met (heads (seen rule.entry)) (map read_meaning facts.now)) }
{
    heads(rule)
        .zip(facts)
        .all(|(head, fact)| values.agree(head, fact))
}
