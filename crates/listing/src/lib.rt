#![tactic(auto)]

mod faults;
pub mod report;
mod text;

pub use report::{report_on, write_report};
