#![tactic(auto)]

pub mod load;

pub use load::LoadAnswer;
