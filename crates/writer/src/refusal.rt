ghost use Rattle.std.specs.Prelude.{◌≡◌};
ghost use Rattle.writer.specs.Refusals.{number};

// Why a call of the writer is refused.
#[derive(Clone, Copy, PartialEq, Debug)]
pub enum Refusal {
    // A number is out of range, or there is one head, guard, body fact or rule too many.
    OutOfRange = 12,
    // A variable of a guard or a body fact stands in no head.
    UnboundVariable = 13,
    // The label is 0, or not above the last.
    LabelOrder = 15,
    // Too few words are left.
    NoRoom = 30,
}

impl From<Refusal> for u8 {
    ghost from_gives = { λ refusal documented. documented ≡ number refusal };

    fn from(refusal: Refusal) -> u8 {
        refusal as u8
    }
}

// What a refused call gives back: the state as it was, why, and the words so far.
pub struct Refused<W> {
    pub state: W,
    pub why: Refusal,
    pub used: usize,
}
