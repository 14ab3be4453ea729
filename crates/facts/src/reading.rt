ghost use Rattle.std.specs.Prelude.{◌≡◌, pos, IfSome};
ghost use Rattle.facts.specs.Kinds.{Made, word_meaning};
ghost use Rattle.std.proofs.Common.{rules};

use crate::kind::Kind;

const LOW: i32 = 0;

const HIGH: i32 = 65_535;

const MEANINGS: u32 = 65_536;

// A bench reading: any word. Its low 16 bits are the meaning, the high 16 are spare.
#[derive(Clone, Copy)]
pub struct Reading {
    pub word: u32,
}

impl Kind for Reading {
    ghost low = { pos 0 };

    ghost high = { pos 65535 };

    ghost meaning = { λ v. word_meaning v.word };

    ghost ends = { Prim.search rules };

    ghost least = { Prim.search rules };

    ghost most = { Prim.search rules };

    ghost above = { Prim.search rules };

    ghost under = { Prim.search rules };

    fn low() -> i32 {
        LOW
    }

    fn high() -> i32 {
        HIGH
    }

    fn read(self) -> i32 {
        (self.word % MEANINGS) as i32
    }

    // The made word is the number itself: its spare bits are 0.
    fn make(n: i32) -> Option<Reading>
        ensures made { Made (pos 0) (pos 65535) (λ v. word_meaning v.word) n result }
        ensures exact { IfSome result (λ v. pos v.word ≡ n) }
    {
        if n < LOW || n > HIGH {
            return None;
        }
        Some(Reading { word: n as u32 })
    }
}
