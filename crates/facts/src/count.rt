ghost use Rattle.std.specs.Prelude.{◌≤ℤ◌};
ghost use Rattle.facts.specs.Kinds.{full_low, full_high};
ghost use Rattle.std.proofs.Common.{rules};

use crate::kind::Kind;

const LOW: i32 = -134_217_728;

const HIGH: i32 = 134_217_727;

// A whole count: any number of the full range.
#[derive(Clone, Copy)]
pub struct WholeCount {
    number: i32,
    ghost least: { full_low ≤ℤ number },
    ghost most: { number ≤ℤ full_high },
}

impl Kind for WholeCount {
    ghost low = { full_low };

    ghost high = { full_high };

    ghost meaning = { λ v. v.number };

    ghost ends = { Prim.search rules };

    ghost least = { Prim.search rules };

    ghost most = { Prim.search rules };

    ghost above = { Prim.search rules };

    ghost under = { Prim.search rules };

    fn low() -> i32 {
        LOW
    }

    fn high() -> i32 {
        HIGH
    }

    fn read(self) -> i32 {
        self.number
    }

    fn make(n: i32) -> Option<WholeCount> {
        if n < LOW || n > HIGH {
            return None;
        }
        Some(WholeCount { number: n })
    }
}
