ghost use Rattle.std.specs.Prelude.{map};
ghost use Rattle.grammar.specs.Parts.{parts};
ghost use Rattle.grammar.specs.Validity.{Valid};

use arrayvec::ArrayVec;
use grammar::{MOST_RULES, Rule};

// Loaded rules, in table order: ranges, amounts, bound variables, taken heads and rising labels are as they must be.
#[derive(Drop)]
pub struct Table {
    pub(crate) rules: ArrayVec<Rule, MOST_RULES>,
    ghost valid: { ∥ Valid (map parts rules.items) ∥₁ },
}
