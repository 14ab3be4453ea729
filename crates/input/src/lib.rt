#![tactic(auto)]

ghost use Rattle.std.specs.Prelude.{◌≡◌, ℕ, ◌/◌, min, length, IfOk};
ghost use Rattle.input.specs.Bytes.{words_in};

use std::alloc::{AllocError, Global};

// The big-endian words that the bytes hold, the first `most` of them; a part of a word at the end is left out.
pub fn words_of(heap: Global, bytes: &[u8], most: usize) -> Result<Vec<u32>, AllocError>
    ensures { IfOk result (λ v. v.items ≡ words_in bytes.now (min (length bytes.now / 4) most)) }
{
    let (words, _) = bytes.as_chunks::<4>();
    words
        .iter()
        .take(most)
        .map(|word| u32::from_be_bytes(*word))
        .collect(heap)
}

#[cfg(test)]
mod tests;
