pub(crate) use rules::LoadFault::{Label, NoTaken, OutOfRange, OutOfTurn, StrayBit, Unbound};
use rules::{LoadFault, Refusal, load};
use std::process::Abort;

// Kinds of words, with the payload 0. Raw numbers, as they come from outside: no code that is tested makes them.
pub(crate) const RULE: u32 = 0x1000_0000;

pub(crate) const KEPT: u32 = 0x2000_0000;

pub(crate) const TAKEN: u32 = 0x3000_0000;

pub(crate) const GUARD: u32 = 0x4000_0000;

pub(crate) const BODY: u32 = 0x5000_0000;

pub(crate) const VAR: u32 = 0x6000_0000;

pub(crate) const CONST: u32 = 0x7000_0000;

pub(crate) const SUM: u32 = 0x8000_0000;

pub(crate) const DIFF: u32 = 0x9000_0000;

pub(crate) const FEED: u32 = 0xA000_0000;

pub(crate) const END: u32 = 0xF000_0000;

// A RULE word with the label 1.
pub(crate) const FIRST: u32 = 0x1000_0001;

pub(crate) fn loads(rt: &impl Abort, words: &[u32], rules: usize, used: usize) {
    let loaded = load(words).expect(rt, "the words are a table");
    assert_eq!(rt; loaded.table.rules().len(), rules);
    assert_eq!(rt; loaded.used, used);
}

pub(crate) fn refuses(
    rt: &impl Abort,
    words: &[u32],
    fault: LoadFault,
    place: usize,
    rules: usize,
) {
    let refusal = Refusal {
        fault,
        place,
        rules,
    };
    assert_eq!(rt; load(words).err(), Some(refusal));
}
