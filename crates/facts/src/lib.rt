#![tactic(auto)]

pub mod count;
pub mod fact;
pub mod kind;
pub mod reading;

pub use count::WholeCount;
pub use fact::{Fact, MOST_ARGS, ReadFact};
pub use kind::Kind;
pub use reading::Reading;

#[cfg(test)]
mod tests;
