ghost use Rattle.std.specs.Prelude.{◌≡◌, ◌≤ℤ◌};
ghost use Rattle.matching.specs.Applying.{within, clamped};

// The lowest and the highest value of a kind.
#[derive(Clone, Copy)]
pub struct Ends {
    pub low: i32,
    pub high: i32,
}

impl Ends {
    // Whether a number lies between the ends, both included.
    pub fn hold(self, number: i64) -> bool
        ensures { result ≡ within self.low self.high number }
    {
        i64::from(self.low) <= number && number <= i64::from(self.high)
    }

    // The number itself where it lies between the ends, else the nearer end.
    pub fn nearest(self, number: i64) -> i32
        ensures number { result ≡ clamped self.low self.high number }
        ensures between { self.low ≤ℤ self.high → (self.low ≤ℤ result) × (result ≤ℤ self.high) }
    {
        if number < i64::from(self.low) {
            self.low
        } else if i64::from(self.high) < number {
            self.high
        } else {
            number as i32
        }
    }
}
