ghost use Rattle.std.specs.Prelude.{List, ℕ, IfOk, OnOk, IfSome, string_bytes};
ghost use Rattle.std.specs.Io.KnownBytes.{Appends};
ghost use Rattle.listing.specs.Reports.{Reports};

use crate::faults::explain;
use crate::text::Text;
use answers::LoadAnswer;
use input::words_of;
use roundtrip::{load_then_write, write_then_load};
use rules::{Loaded, Refusal, load};
use std::alloc::{AllocError, Global};
use std::io;
use std::io::{Read, Write};

// The way back: the rules are written again, and what was written is loaded again.
fn way_back(heap: Global, words: &[u32], loaded: &Loaded) -> Result<String, AllocError> {
    let mut memory = vec![in heap; 0u32; words.len()]?;
    let Ok(count) = load_then_write(words, memory.as_mut_slice()) else {
        return String::from_str(heap, "not written again\n");
    };
    let same = if words[..count] == memory[..count] {
        "the same"
    } else {
        "other"
    };
    let Ok(again) = write_then_load(&loaded.table, memory.as_mut_slice()) else {
        return format!(in heap; "written again: {same} {count} words, not loaded again\n");
    };
    format!(in heap;
        "written again: {same} {count} words; loaded again: {} rules, {} words\n",
        again.table.rules().len(),
        again.used
    )
}

// The rules of an accepted table, a line each, and the way back.
fn rule_lines(heap: Global, words: &[u32], loaded: &Loaded) -> Result<String, AllocError> {
    let mut text = String::new(heap);
    for rule in loaded.table.rules() {
        writeln!(text, "{}", Text(rule))?;
    }
    text.push_str(way_back(heap, words, loaded)?.as_str())?;
    Ok(text)
}

// What follows the first line: the rules, or what is wrong.
fn details(
    heap: Global,
    words: &[u32],
    res: &Result<Loaded, Refusal>,
) -> Result<String, AllocError> {
    match res {
        Ok(loaded) => rule_lines(heap, words, loaded),
        Err(refusal) => format!(in heap; "{}\n", explain(heap, words, *refusal)?),
    }
}

// What the table in the bytes holds, or what is wrong with it, in lines of text.
pub fn report_on(heap: Global, bytes: &[u8]) -> Result<String, AllocError>
    ensures { IfOk result (λ s. Reports bytes.now (string_bytes s)) }
{
    let words = words_of(heap, bytes, usize::MAX)?;
    let result = load(words.as_slice());
    let first = LoadAnswer::from(&result);
    let rest = details(heap, words.as_slice(), &result)?;
    format!(in heap; "{first}\n{rest}")
}

// Reads a rule table to its end and writes what is in it, or what is wrong with it.
pub fn write_report<R: Read, W: Write>(
    heap: Global,
    input: &mut R,
    output: &mut W,
) -> io::Result<()>
    ensures { OnOk result (IfSome (R.Read.remaining input.old) (λ bytes. (text : List ℕ) × Reports bytes text × Appends (W.Write.contents output.old) (W.Write.contents output.new) text)) }
{
    let mut bytes = Vec::new(heap);
    input.read_to_end(&mut bytes)?;
    let text = report_on(heap, bytes.as_slice())?;
    output.write_all(text.as_bytes())
}
