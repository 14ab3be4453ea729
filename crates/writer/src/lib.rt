#![tactic(auto)]

mod add;
mod code;
mod part;
pub mod refusal;
pub mod stage;
pub mod table;
mod tally;
mod variables;
pub mod whole;

pub use refusal::{Refusal, Refused};
pub use table::{Begun, Filling, Guarding, OpenRule, TableWriter, Taking};
pub use whole::write_table;

#[cfg(test)]
mod tests;
