ghost use Rattle.std.specs.Prelude.{◌≡◌, ◌+◌, ◌<◌, ◌≤◌, ℕ, List, ◌++◌, map, length, sum_by, position, OnOk, IfErr};
ghost use Rattle.grammar.specs.Parts.{parts};
ghost use Rattle.grammar.specs.Validity.{is_var, head_has, binds, free, Sound, Valid};
ghost use Rattle.grammar.specs.Writing.{standard, FormedRule, Formed, rule_words, written};
ghost use Rattle.rules.specs.Faults.{RuleFault, FirstFault};

use crate::refusal::LoadFault;
use grammar::{Head, Operand, Rule};
use sizes::{heads_size, rule_size};
use words::{Kind, Word};

fn is_variable(operand: Operand, variable: u32) -> bool
    ensures { result ≡ is_var variable operand }
{
    match operand {
        Operand::Var(v) => u32::from(v) == variable,
        Operand::Const(_) => false,
    }
}

fn head_has(head: Head, variable: u32) -> bool
    ensures { result ≡ head_has variable head }
{
    head.args
        .into_iter()
        .any(|operand| is_variable(operand, variable))
}

// Whether a variable stands in a head of the rule.
fn is_bound(rule: &Rule, variable: u32) -> bool
    ensures { result ≡ binds (parts rule.now) variable }
{
    rule.kept
        .iter()
        .chain(rule.taken.iter())
        .any(|head| head_has(*head, variable))
}

// Whether a word is a VAR word whose variable stands in no head of the rule.
fn is_free(rule: &Rule, bits: u32) -> bool
    ensures { result ≡ free (parts rule.now) bits }
{
    let word = Word::from(bits);
    word.is(Kind::Var) && !is_bound(rule, word.payload)
}

// The first of the words that is a free variable.
fn first_free(rule: &Rule, ws: &[u32]) -> Option<usize>
    ensures { result ≡ position (free (parts rule.now)) ws.now }
{
    ws.iter().position(|word| is_free(rule, *word))
}

// The fault of a well-formed rule and its offset in the rule's words; the label before it was `last`.
fn rule_fault(rule: &Rule, last: u16, ws: &[u32]) -> Result<(), (LoadFault, usize)>
    requires formed { FormedRule standard (parts rule.now) }
    requires words { ws.now ≡ rule_words (parts rule.now) }
    ensures sound { OnOk result (Sound (parts rule.now)) }
    ensures rises { OnOk result (last < rule.now.label) }
    ensures fault { IfErr result (λ x. RuleFault (parts rule.now) last x.0 x.1) }
{
    let heads = heads_size(rule);
    if let Some(n) = first_free(rule, &ws[heads..]) {
        return Err((LoadFault::Unbound, heads + n));
    }
    if rule.taken.is_empty() {
        return Err((LoadFault::NoTaken, 0));
    }
    if rule.label <= last {
        return Err((LoadFault::Label, 0));
    }
    Ok(())
}

// The first fault of the rules of a well-formed table and its place in the table's words.
pub(crate) fn first_fault(rules: &[Rule], ws: &[u32]) -> Result<(), (LoadFault, usize)>
    requires formed { Formed standard (map parts rules.now) }
    requires begins { (us : List ℕ) × (ws.now ≡ written (map parts rules.now) ++ us) }
    ensures valid { OnOk result (Valid (map parts rules.now)) }
    ensures fault { IfErr result (λ x. FirstFault (map parts rules.now) x.0 x.1) }
{
    let mut at = 0;
    let mut last = 0;
    for rule in rules {
        let size = rule_size(rule);
        rule_fault(rule, last, &ws[at..at + size]).map_err(|(fault, offset)| (fault, at + offset))?;
        at += size;
        last = rule.label;
    }
    Ok(())
}
