// The most rules that a table has.
pub const MOST_RULES: usize = 32;

// The most heads that a rule has, kept and taken together.
pub const MOST_HEADS: usize = 3;

// The most guards that a rule has.
pub const MOST_GUARDS: usize = 4;

// The most body facts that a rule has.
pub const MOST_BODY: usize = 3;

// The last variable; the first is 0.
pub const LAST_VAR: u8 = 7;
