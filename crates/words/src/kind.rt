ghost use Rattle.std.specs.Prelude.{Some};
ghost use Rattle.words.specs.Words.{kind_text};

use std::fmt;

// What a word is for: its top four bits, 0 to 15 in this order.
#[derive(Clone, Copy, PartialEq, Debug)]
pub enum Kind {
    Blank,
    Rule,
    Kept,
    Taken,
    Guard,
    Body,
    Var,
    Const,
    Sum,
    Diff,
    Feed,
    Take,
    Look,
    Commit,
    Size,
    End,
}

// The kinds by their numbers.
pub const KINDS: [Kind; 16] = [
    Kind::Blank,
    Kind::Rule,
    Kind::Kept,
    Kind::Taken,
    Kind::Guard,
    Kind::Body,
    Kind::Var,
    Kind::Const,
    Kind::Sum,
    Kind::Diff,
    Kind::Feed,
    Kind::Take,
    Kind::Look,
    Kind::Commit,
    Kind::Size,
    Kind::End,
];

impl fmt::Display for Kind {
    ghost output = { λ kind. Some (kind_text kind) };

    fn fmt<W: fmt::Write>(&self, f: &mut fmt::Formatter<W>) -> fmt::Result {
        f.write_str(match self {
            Kind::Blank => "of kind 0",
            Kind::Rule => "RULE",
            Kind::Kept => "KEPT",
            Kind::Taken => "TAKEN",
            Kind::Guard => "GUARD",
            Kind::Body => "BODY",
            Kind::Var => "VAR",
            Kind::Const => "CONST",
            Kind::Sum => "SUM",
            Kind::Diff => "DIFF",
            Kind::Feed => "FEED",
            Kind::Take => "TAKE",
            Kind::Look => "LOOK",
            Kind::Commit => "COMMIT",
            Kind::Size => "SIZE",
            Kind::End => "END",
        })
    }
}
