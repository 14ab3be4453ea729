ghost use Rattle.std.specs.Prelude.{◌≡◌, true, List, map, length, ◌≤ℤ◌, IfSome};
ghost use Rattle.facts.specs.Meanings.{ReadFact as Read, read_meaning};
ghost use Rattle.grammar.specs.Parts.{seen};
ghost use Rattle.matching.specs.Applying.{fits, values, in_ends, verdict, body, exact_body};
ghost use Rattle.matching.specs.Conditions.{Decided};
ghost use Rattle.matching.specs.Rewriting.{Rewritable};
ghost use Rattle.matching.specs.Written.{WrittenAt, Between};

use crate::body::{body_within, fact_written};
use crate::ends::Ends;
use crate::heads::{agree, bound, head_fits};
use crate::values::Values;
use crate::verdict::Verdict;
use facts::ReadFact;
use grammar::RuleParts;

// Goes by the conditions in their order; what follows from the verdict is said of `judge`.
// Rule and facts stay two parameters, here and below: callers choose facts anew for each rule, and some functions take one.
fn verdict_on(rule: RuleParts<'_>, facts: &[ReadFact], ends: Ends) -> Verdict
    ensures { result ≡ verdict ends.low ends.high (seen rule.entry) (map read_meaning facts.now) }
{
    let Some(values) = bound(rule, facts) else {
        return Verdict::NoMatch;
    };
    if !agree(rule, facts, &values) || !values.all_hold(rule.guards) {
        return Verdict::NoMatch;
    }
    if body_within(rule.body, &values, ends) {
        Verdict::Applies
    } else {
        Verdict::OutsideEnds
    }
}

// What the rule says of these facts, one for each position, for a value kind with these ends: a matter of meanings alone.
pub fn judge(rule: RuleParts<'_>, facts: &[ReadFact], ends: Ends) -> Verdict
    ensures judged { result ≡ verdict ends.low ends.high (seen rule.entry) (map read_meaning facts.now) }
    ensures spare { (others : List Read) → map read_meaning others ≡ map read_meaning facts.now → result ≡ verdict ends.low ends.high (seen rule.entry) (map read_meaning others) }
    ensures decided { Decided ends.low ends.high (seen rule.entry) (map read_meaning facts.now) result }
    ensures rewrites { Rewritable ends.low ends.high (seen rule.entry) (map read_meaning facts.now) result }
{
    verdict_on(rule, facts, ends)
}

// Whether the head at a position, counted from 0, agrees with the fact in name and count.
pub fn head_fits_at(rule: RuleParts<'_>, position: usize, fact: &ReadFact) -> bool
    ensures answer { result ≡ fits (seen rule.entry) position (read_meaning fact.now) }
    ensures spare { (other : Read) → read_meaning other ≡ read_meaning fact.now → result ≡ fits (seen rule.entry) position (read_meaning other) }
{
    let kept = rule.kept.len();
    if position < kept {
        return head_fits(&rule.kept[position], fact);
    }
    rule.taken
        .get(position - kept)
        .is_some_and(|head| head_fits(head, fact))
}

// How many facts the rule's body writes.
pub fn body_count(rule: RuleParts<'_>) -> usize
    ensures { result ≡ length (seen rule.entry).body }
{
    rule.body.len()
}

// What the variables mean; each is 0 where some fact does not fit.
fn values_of(rule: RuleParts<'_>, facts: &[ReadFact]) -> Values
    ensures { result.numbers ≡ values (seen rule.entry) (map read_meaning facts.now) }
{
    bound(rule, facts).unwrap_or_else(Values::unbound)
}

// The body's fact at an index, counted from 0, as the rule writes it for these facts; none past the body's end.
pub fn body_fact(
    rule: RuleParts<'_>,
    facts: &[ReadFact],
    ends: Ends,
    index: usize,
) -> Option<ReadFact>
    ensures meaning { WrittenAt (body ends.low ends.high (seen rule.entry) (map read_meaning facts.now)) index result }
    ensures spare { (others : List Read) → map read_meaning others ≡ map read_meaning facts.now → WrittenAt (body ends.low ends.high (seen rule.entry) (map read_meaning others)) index result }
    ensures exact { in_ends ends.low ends.high (seen rule.entry) (map read_meaning facts.now) ≡ true → WrittenAt (exact_body (seen rule.entry) (map read_meaning facts.now)) index result }
    ensures between { ends.low ≤ℤ ends.high → IfSome result (λ f. Between ends.low ends.high f.args) }
{
    let fact = rule.body.get(index)?;
    Some(fact_written(fact, &values_of(rule, facts), ends))
}
