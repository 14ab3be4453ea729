use grammar::{BodyFact, Guard, Head};

// A part of a rule.
#[derive(Clone, Copy)]
pub enum Part {
    Kept(Head),
    Taken(Head),
    Guard(Guard),
    Body(BodyFact),
}
