// The numbers of an open rule: words so far, rules with this one, label, the variables of the
// heads as bits, and the parts so far.
#[derive(Clone, Copy)]
pub struct Tally {
    pub used: usize,
    pub rules: usize,
    pub label: u16,
    pub variables: u8,
    pub heads: usize,
    pub guards: usize,
    pub body: usize,
}
