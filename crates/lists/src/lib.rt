#![tactic(auto)]

pub mod list;
pub mod ring;

pub use list::WaitingList;
pub use ring::{FirstFirst, LastFirst, RingList};

#[cfg(test)]
mod tests;
