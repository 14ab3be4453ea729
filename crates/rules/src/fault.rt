ghost use Rattle.std.specs.Prelude.{◌≡◌, true, false, OnOk, OnErr, IfErr};
ghost use Rattle.grammar.specs.declared.reason.Reason.TheVariants.{OutOfTurn, OutOfRange};

use grammar::Reason;

// A faulty word: why, and how many words were left with it; none left where the words end too early.
#[derive(Clone, Copy)]
pub(crate) struct Fault {
    pub reason: Reason,
    pub left: usize,
}

impl Fault {
    // No word of its kind may stand there, or no word is left.
    pub(crate) fn out_of_turn(left: usize) -> Fault
        ensures { result ≡ record { reason = OutOfTurn; left = left } }
    {
        Fault {
            reason: Reason::OutOfTurn,
            left,
        }
    }

    // A number or an amount is too large.
    pub(crate) fn out_of_range(left: usize) -> Fault
        ensures { result ≡ record { reason = OutOfRange; left = left } }
    {
        Fault {
            reason: Reason::OutOfRange,
            left,
        }
    }

    // Refuses a word for this reason unless the test holds.
    pub(crate) fn unless(holds: bool, reason: Reason, left: usize) -> Result<(), Fault>
        ensures passes { OnOk result (holds ≡ true) }
        ensures refuses { OnErr result (holds ≡ false) }
        ensures fault { IfErr result (λ f. f ≡ record { reason = reason; left = left }) }
    {
        if holds {
            Ok(())
        } else {
            Err(Fault { reason, left })
        }
    }
}
