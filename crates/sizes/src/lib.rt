// How many words a rule and its parts are written as.
#![tactic(auto)]

mod part;
pub mod rule;

pub use rule::{heads_size, rule_size};

#[cfg(test)]
mod tests;
