#![tactic(auto)]

pub mod kind;
pub mod word;

pub use kind::{KINDS, Kind};
pub use word::{Word, constant_word, fact_word};
