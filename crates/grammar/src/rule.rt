ghost use Rattle.std.specs.Prelude.{◌≡◌};
ghost use Rattle.grammar.specs.Parts.{parts, seen};

use crate::limits::{MOST_BODY, MOST_GUARDS, MOST_HEADS};
use crate::part::{BodyFact, Guard, Head};
use arrayvec::ArrayVec;

// A rule: kept heads come before taken ones.
#[derive(Default, Drop)]
pub struct Rule {
    pub label: u16,
    pub kept: ArrayVec<Head, MOST_HEADS>,
    pub taken: ArrayVec<Head, MOST_HEADS>,
    pub guards: ArrayVec<Guard, MOST_GUARDS>,
    pub body: ArrayVec<BodyFact, MOST_BODY>,
}

// The parts of a rule, in any number, wherever they stand.
#[derive(Clone, Copy)]
pub struct RuleParts<'a> {
    pub label: u16,
    pub kept: &'a [Head],
    pub taken: &'a [Head],
    pub guards: &'a [Guard],
    pub body: &'a [BodyFact],
}

impl Rule {
    // The rule's own parts, as they are.
    pub fn parts(&self) -> RuleParts<'_>
        ensures { seen result ≡ parts self.now }
    {
        RuleParts {
            label: self.label,
            kept: &self.kept,
            taken: &self.taken,
            guards: &self.guards,
            body: &self.body,
        }
    }
}
