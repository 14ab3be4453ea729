#![tactic(auto)]

ghost use Rattle.std.specs.Prelude.{◌≡◌, ℕ, IfOk};
ghost use Rattle.words.specs.Words.{tag};
ghost use Rattle.hints.specs.Follows.{Follows, other};

use rules::{LoadFault, Refusal, load};
use std::alloc::{AllocError, Global};
use words::{Kind, Word};

// Whether a refusal is other than "out of turn at this place".
fn is_other(refusal: Refusal, place: usize) -> bool
    ensures { result ≡ other refusal.fault refusal.place place }
{
    refusal.fault != LoadFault::OutOfTurn || refusal.place != place
}

// Whether a word of this kind may stand after the words, which begin a table: the loader is asked.
pub fn may_follow(heap: Global, before: &[u32], kind: Kind) -> Result<bool, AllocError>
    ensures { IfOk result (λ b. Follows before.now (tag kind) b) }
{
    let mut words = Vec::from_slice(heap, before)?;
    words.push(u32::from(Word { kind, payload: 0 }))?;
    match load(words.as_slice()) {
        Ok(_) => Ok(true),
        Err(refusal) => Ok(is_other(refusal, before.len())),
    }
}

#[cfg(test)]
mod tests;
