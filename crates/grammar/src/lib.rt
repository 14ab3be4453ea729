#![tactic(auto)]

pub mod limits;
pub mod part;
pub mod reason;
pub mod rule;

pub use args::Args;
pub use limits::{LAST_VAR, MOST_BODY, MOST_GUARDS, MOST_HEADS, MOST_RULES};
pub use part::{Atom, BodyFact, Guard, Head, Operand, Term, Test, UnknownTest};
pub use reason::Reason;
pub use rule::{Rule, RuleParts};
