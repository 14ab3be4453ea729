// What a rule says of facts chosen one for each of its positions.
#[derive(Clone, Copy, PartialEq, Debug)]
pub enum Verdict {
    // Names, counts, numbers or guards do not agree.
    NoMatch,
    // All of these agree, but a body value lies outside the ends.
    OutsideEnds,
    Applies,
}
