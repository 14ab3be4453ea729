ghost use Rattle.std.specs.Prelude.{◌≡◌, ℕ, ◌+◌, ◌-◌, ◌*◌, ◌/◌, ◌%◌, ◌^◌, ◌<◌, ◌≤◌, ℤ, pos, negsuc, MatchOption, ◌==◌};
ghost use Rattle.words.specs.Words.{tag, kind_of, payload_of, word, allowed, name_in, count_in, label_in, signed, unsigned, FullRange};

use crate::kind::{KINDS, Kind};

// The payload bits that each kind of word may use, by the kind's number.
const MASKS: [u32; 16] = [
    0, 0xFFFF, 0xFF_000F, 0xFF_000F, 0xF, 0xFF_000F, 0xF, 0xFFF_FFFF, 0, 0, 0xFF_000F, 0xF, 0xF,
    0xF, 0xFF_FFFF, 0,
];

const LEAST: i32 = -134_217_728;

const MOST: i32 = 134_217_727;

// A word as its kind and its payload, the low 28 bits.
#[derive(Clone, Copy, PartialEq, Debug)]
pub struct Word {
    pub kind: Kind,
    pub payload: u32,
}

impl From<u32> for Word {
    ghost from_gives = { λ bits word. (tag word.kind ≡ kind_of bits) × (word.payload ≡ payload_of bits) };

    fn from(bits: u32) -> Word {
        Word {
            kind: KINDS[(bits >> 28) as usize],
            payload: bits & 0xFFF_FFFF,
        }
    }
}

// A payload past 28 bits loses what is above them.
impl From<Word> for u32 {
    ghost from_gives = { λ w bits. bits ≡ word (tag w.kind) (payload_of w.payload) };

    fn from(word: Word) -> u32 {
        (word.kind as u32) << 28 | word.payload & 0xFFF_FFFF
    }
}

impl Word {
    pub fn is(self, kind: Kind) -> bool
        ensures { result ≡ (tag self.kind == tag kind) }
    {
        self.kind == kind
    }

    // Whether the payload sets no bit that the kind may not use.
    pub fn is_clean(self) -> bool
        ensures { result ≡ allowed (tag self.kind) self.payload }
    {
        self.payload & MASKS[self.kind as usize] == self.payload
    }

    pub fn name(self) -> u8
        ensures { result ≡ name_in self.payload }
    {
        (self.payload / 0x1_0000 % 0x100) as u8
    }

    // The low four bits: a count, a variable, a guard's test or a lane.
    pub fn count(self) -> u8
        ensures { result ≡ count_in self.payload }
    {
        (self.payload % 0x10) as u8
    }

    pub fn label(self) -> u16
        ensures { result ≡ label_in self.payload }
    {
        (self.payload % 0x1_0000) as u16
    }

    // The 28 bits as a two's complement number.
    pub fn constant(self) -> i32
        ensures { result ≡ signed (payload_of self.payload) }
    {
        (self.payload << 4).cast_signed() >> 4
    }
}

// The word of a head, a body fact or a feed; none if the count takes more than four bits.
pub fn fact_word(kind: Kind, name: u8, count: u8) -> Option<u32>
    ensures { MatchOption result (2 ^ 4 ≤ count) (λ w. (count < 2 ^ 4) × (w ≡ word (tag kind) (name * 2 ^ 16 + count))) }
{
    if count >= 16 {
        return None;
    }
    let payload = u32::from(name) << 16 | u32::from(count);
    Some(u32::from(Word { kind, payload }))
}

// The CONST word of a number; none if it lies outside the full range.
pub fn constant_word(n: i32) -> Option<u32>
    ensures { MatchOption result (FullRange n → ⊥) (λ w. FullRange n × (w ≡ word (tag Kind.Const) (unsigned n))) }
{
    if n < LEAST || n > MOST {
        return None;
    }
    let kind = Kind::Const;
    let payload = n.cast_unsigned();
    Some(u32::from(Word { kind, payload }))
}
