ghost use Rattle.std.specs.Prelude.{◌≡◌};
ghost use Rattle.roundtrip.specs.declared.error.BackError.TheVariants.{Load, Write};

// Why words were not loaded and written again.
#[derive(Clone, Copy, PartialEq, Debug)]
pub enum BackError {
    Load(rules::Refusal),
    Write(writer::Refusal),
}

impl From<rules::Refusal> for BackError {
    ghost from_gives = { λ refusal error. error ≡ Load refusal };

    fn from(refusal: rules::Refusal) -> BackError {
        BackError::Load(refusal)
    }
}

impl From<writer::Refusal> for BackError {
    ghost from_gives = { λ refusal error. error ≡ Write refusal };

    fn from(refusal: writer::Refusal) -> BackError {
        BackError::Write(refusal)
    }
}
