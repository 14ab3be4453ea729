mod no_rule;
mod open_rule;

use crate::stage::{Body, Guards, Heads, Start};
use crate::tally::Tally;
use std::marker::PhantomData;

// A table with no open rule: words so far, closed rules, the last label.
// The words so far are a number and no vector: the memory is lent at each call.
pub struct TableWriter {
    used: usize,
    rules: usize,
    last: u16,
}

// An open rule: its numbers, and how far it has come.
pub struct OpenRule<S> {
    tally: Tally,
    stage: PhantomData<S>,
}

// An open rule with no taken head yet.
pub type Begun = OpenRule<Start>;

// An open rule with a taken head, and no guard or body fact.
pub type Taking = OpenRule<Heads>;

// An open rule with a guard, and no body fact.
pub type Guarding = OpenRule<Guards>;

// An open rule with a body fact.
pub type Filling = OpenRule<Body>;
