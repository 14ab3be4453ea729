ghost use Rattle.std.specs.Prelude.{◌≡◌, ℤ, ◌≤ℤ◌};
ghost use Rattle.facts.specs.Kinds.{Made, full_low, full_high};

// A kind of value. A value means a whole number between the kind's two ends.
pub trait Kind: Copy {
    ghost low: { ℤ };

    ghost high: { ℤ };

    ghost meaning: { Self → ℤ };

    fn low() -> i32
        ensures { result ≡ low };

    fn high() -> i32
        ensures { result ≡ high };

    // The number that the value means.
    fn read(self) -> i32
        ensures { result ≡ meaning self };

    // A value of the wanted meaning; none outside the ends.
    fn make(n: i32) -> Option<Self>
        ensures { Made low high meaning n result };

    ghost ends: { low ≤ℤ high };

    ghost least: { full_low ≤ℤ low };

    ghost most: { high ≤ℤ full_high };

    ghost above: { (v : Self) → low ≤ℤ meaning v };

    ghost under: { (v : Self) → meaning v ≤ℤ high };
}
