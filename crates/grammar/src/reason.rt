// What is wrong with a single word of a table.
#[derive(Clone, Copy, PartialEq, Debug)]
pub enum Reason {
    // No word of its kind may stand there, or the words end before END.
    OutOfTurn,
    // It sets a bit that its kind may not use.
    StrayBit,
    // A number or an amount is too large.
    OutOfRange,
}
