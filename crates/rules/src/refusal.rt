ghost use Rattle.std.specs.Prelude.{◌≡◌};
ghost use Rattle.rules.specs.Loading.{code, fault_of};

use grammar::Reason;

// What is wrong with a table.
#[derive(Clone, Copy, PartialEq, Debug)]
pub enum LoadFault {
    OutOfTurn = 10,
    StrayBit = 11,
    OutOfRange = 12,
    // A variable of a guard or the body stands in no head.
    Unbound = 13,
    // A rule takes no fact.
    NoTaken = 14,
    // A label is 0 or not above the last.
    Label = 15,
}

impl From<LoadFault> for u32 {
    ghost from_gives = { λ fault number. number ≡ code fault };

    fn from(fault: LoadFault) -> u32 {
        fault as u32
    }
}

impl From<Reason> for LoadFault {
    ghost from_gives = { λ reason fault. fault ≡ fault_of reason };

    fn from(reason: Reason) -> LoadFault {
        match reason {
            Reason::OutOfTurn => LoadFault::OutOfTurn,
            Reason::StrayBit => LoadFault::StrayBit,
            Reason::OutOfRange => LoadFault::OutOfRange,
        }
    }
}

// Why a table was refused: the word's place, and the RULE words up to it and with it.
#[derive(Clone, Copy, PartialEq, Debug)]
pub struct Refusal {
    pub fault: LoadFault,
    pub place: usize,
    pub rules: usize,
}
