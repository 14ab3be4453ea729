#![tactic(auto)]

mod body;
pub mod ends;
mod heads;
mod rule;
mod values;
pub mod verdict;

pub use ends::Ends;
pub use rule::{body_count, body_fact, head_fits_at, judge};
pub use verdict::Verdict;

#[cfg(test)]
mod tests;
