ghost use Rattle.std.specs.Prelude.{◌≡◌, ◌-◌, length, count_by, nat_eq};
ghost use Rattle.words.specs.Words.{kind_of};
ghost use Rattle.grammar.specs.Faults.{rule_words_to};
ghost use Rattle.grammar.specs.Validity.{Valid};
ghost use Rattle.rules.specs.Loading.{rules_of, fault_of, Loads, Accepts};

use crate::check::first_fault;
use crate::fault::Fault;
use crate::refusal::{LoadFault, Refusal};
use crate::rule::read_rules;
use crate::table::Table;
use arrayvec::ArrayVec;
use grammar::{MOST_RULES, Rule};
use words::{Kind, Word};

// An accepted table, and how many words it took.
#[derive(Drop)]
pub struct Loaded {
    pub table: Table,
    pub used: usize,
}

impl Table {
    // The rules, in table order.
    pub fn rules(&self) -> &[Rule]
        ensures same { result.now ≡ self.now.rules.items }
        ensures valid { ∥ Valid (rules_of self.now) ∥₁ }
    {
        &self.rules
    }
}

// How many of the words are RULE words.
fn count_rules(ws: &[u32]) -> usize
    ensures { result ≡ count_by (λ w. nat_eq (kind_of w) 1) ws.now }
{
    ws.iter()
        .filter(|word| Word::from(**word).is(Kind::Rule))
        .count()
}

// A refusal at a place, with the RULE words up to it and with it.
fn refusal(fault: LoadFault, place: usize, ws: &[u32]) -> Refusal
    ensures fault { result.fault ≡ fault }
    ensures place { result.place ≡ place }
    ensures rules { result.rules ≡ rule_words_to ws.now place }
{
    let rules = count_rules(ws.get(..=place).unwrap_or(ws));
    Refusal {
        fault,
        place,
        rules,
    }
}

// The refusal of a faulty word: its place is counted from the front.
fn refused(fault: Fault, ws: &[u32]) -> Refusal
    ensures fault { result.fault ≡ fault_of fault.reason }
    ensures place { result.place ≡ length ws.now - fault.left }
    ensures rules { result.rules ≡ rule_words_to ws.now result.place }
{
    let place = ws.len().saturating_sub(fault.left);
    refusal(fault.reason.into(), place, ws)
}

// Loads the table that the words begin with.
pub fn load(words: &[u32]) -> Result<Loaded, Refusal>
    ensures loads { Loads words.now result }
    ensures accepts { Accepts words.now result }
{
    let mut rules = ArrayVec::new();
    let rest = read_rules(&mut rules, MOST_RULES, words).map_err(|fault| refused(fault, words))?;
    first_fault(&rules, words).map_err(|(fault, place)| refusal(fault, place, words))?;
    Ok(Loaded {
        table: Table { rules },
        used: words.len() - rest.len(),
    })
}
