#![tactic(auto)]

ghost use Rattle.std.specs.Prelude.{◌≡◌, ℕ, ◌<◌, ◌≤◌, List, ◌++◌, length, take, drop, IfOk, IfErr, MatchResult};
ghost use Rattle.grammar.specs.Parts.{Parts};
ghost use Rattle.grammar.specs.Validity.{Valid};
ghost use Rattle.grammar.specs.Writing.{written};
ghost use Rattle.rules.specs.Loading.{rules_of};
ghost use Rattle.writer.specs.declared.refusal.Refusal.TheVariants.{NoRoom};
ghost use Rattle.roundtrip.specs.Back.{NotBack};

use rules::{Loaded, Table, load};
use writer::{Refusal, write_table};

pub mod error;

pub use error::BackError;

// Loads the words and writes the rules into the memory: the same words.
pub fn load_then_write(words: &[u32], memory: &mut [u32]) -> Result<usize, BackError>
    ensures whole { IfOk result (λ n. (rs : List Parts) (us : List ℕ) → Valid rs → words.now ≡ written rs ++ us → n ≡ length (written rs)) }
    ensures same { MatchResult result (λ n. (n ≤ length words.now) × (memory.new ≡ take n words.now ++ drop n memory.old)) (λ _. memory.new ≡ memory.old) }
    ensures refused { IfErr result (NotBack words.now memory.old) }
{
    let loaded = load(words)?;
    let count = write_table(&loaded.table, memory)?;
    Ok(count)
}

// Writes the table into the memory and loads it: the same rules, and as many words as were written.
pub fn write_then_load(table: &Table, memory: &mut [u32]) -> Result<Loaded, Refusal>
    ensures { MatchResult result (λ x. ∥ rules_of x.table ≡ rules_of table.now ∥₁ × (x.used ≡ length (written (rules_of table.now))) × (memory.new ≡ written (rules_of table.now) ++ drop x.used memory.old)) (λ e. (e ≡ NoRoom) × (length memory.old < length (written (rules_of table.now))) × (memory.new ≡ memory.old)) }
{
    write_table(table, memory)?;
    Ok(load(memory).unwrap())
}
