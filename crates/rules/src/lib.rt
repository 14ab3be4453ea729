#![tactic(auto)]

mod check;
mod fault;
pub mod loader;
mod part;
mod parts;
mod read;
pub mod refusal;
mod rule;
pub mod table;

pub use loader::{Loaded, load};
pub use refusal::{LoadFault, Refusal};
pub use table::Table;
