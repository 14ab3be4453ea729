ghost use Rattle.std.specs.Prelude.{◌≡◌, ℕ, ◌+◌, ◌*◌, ◌^◌, ◌<◌, ◌≤◌, List, ◌++◌, length, drop, MatchResult};
ghost use Rattle.std.specs.List.{flat_map, AllByRecursion};
ghost use Rattle.words.specs.Words.{tag};
ghost use Rattle.grammar.specs.Writing.{written};
ghost use Rattle.rules.specs.Loading.{rules_of};
ghost use Rattle.writer.specs.Memory.{placed};
ghost use Rattle.writer.specs.Tables.{words_of, FormedRuleOf};
ghost use Rattle.writer.specs.declared.refusal.Refusal.TheVariants.{NoRoom};

use crate::add::put_words;
use crate::code::{Encode, word_of};
use crate::refusal::Refusal;
use grammar::Rule;
use rules::Table;
use sizes::rule_size;
use words::Kind;

// How many words the rules are written as.
fn rules_size(rules: &[Rule]) -> usize
    requires { length rules.now ≤ 32 }
    ensures { result ≡ length (flat_map words_of rules.now) }
{
    rules.iter().map(|rule| rule_size(rule)).sum()
}

// Puts the words of the parts from a place on.
fn put_parts<P: Encode>(memory: &mut [u32], at: usize, parts: &[P], kind: Kind) -> usize
    requires formed { ∥ AllByRecursion P.formed parts.now ∥₁ }
    requires room { at + length (flat_map (P.words (tag kind)) parts.now) ≤ length memory.old }
    ensures memory { memory.new ≡ placed at (flat_map (P.words (tag kind)) parts.now) memory.old }
    ensures value { result ≡ at + length (flat_map (P.words (tag kind)) parts.now) }
{
    let mut end = at;
    for part in parts {
        let Some(code) = part.code(kind) else {
            unreachable!()
        };
        end = put_words(memory, end, &code);
    }
    end
}

// Puts the words of a rule from a place on.
fn put_rule(memory: &mut [u32], at: usize, rule: &Rule) -> usize
    requires formed { ∥ FormedRuleOf rule.now ∥₁ }
    requires room { at + length (words_of rule.now) ≤ length memory.old }
    ensures memory { memory.new ≡ placed at (words_of rule.now) memory.old }
    ensures value { result ≡ at + length (words_of rule.now) }
{
    let kept = rule.kept.as_slice();
    let taken = rule.taken.as_slice();
    let guards = rule.guards.as_slice();
    let body = rule.body.as_slice();
    memory[at] = word_of(Kind::Rule, u32::from(rule.label));
    let at = put_parts(memory, at + 1, kept, Kind::Kept);
    let at = put_parts(memory, at, taken, Kind::Taken);
    let at = put_parts(memory, at, guards, Kind::Guard);
    put_parts(memory, at, body, Kind::Body)
}

// Puts the words of the rules from the first place on. It is no call of `put_parts`: a rule's words are of four kinds.
fn put_rules(memory: &mut [u32], rules: &[Rule]) -> usize
    requires formed { ∥ AllByRecursion FormedRuleOf rules.now ∥₁ }
    requires room { length (flat_map words_of rules.now) ≤ length memory.old }
    ensures memory { memory.new ≡ placed 0 (flat_map words_of rules.now) memory.old }
    ensures value { result ≡ length (flat_map words_of rules.now) }
{
    let mut end = 0;
    for rule in rules {
        end = put_rule(memory, end, rule);
    }
    end
}

// Writes a loaded table whole; answers its words.
pub fn write_table(table: &Table, memory: &mut [u32]) -> Result<usize, Refusal>
    ensures { MatchResult result (λ n. (n ≡ length (written (rules_of table.now))) × (memory.new ≡ written (rules_of table.now) ++ drop n memory.old)) (λ e. (e ≡ NoRoom) × (length memory.old < length (written (rules_of table.now))) × (memory.new ≡ memory.old)) }
{
    let rules = table.rules();
    if rules_size(rules) >= memory.len() {
        return Err(Refusal::NoRoom);
    }
    let end = put_rules(memory, rules);
    memory[end] = word_of(Kind::End, 0);
    Ok(end + 1)
}
