#![tactic(auto)]

pub mod cell;
mod cell_store;
mod content;
pub mod flat;
pub mod packed;
mod pick;
pub mod store;

pub use cell::{FlatCell, PackedCell};
pub use cell_store::CellStore;
pub use flat::FlatStore;
pub use packed::PackedStore;
pub use store::Store;

#[cfg(test)]
mod promises;
#[cfg(test)]
mod tests;
