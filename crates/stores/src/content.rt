ghost use Rattle.std.specs.Prelude.{◌≡◌, ◌/◌, ◌%◌, ◌<◌, ◌≤◌, pos, ◌+ℤ◌};
ghost use Rattle.facts.specs.Meanings.{Meaning, meaning};
ghost use Rattle.facts.specs.Places.{Place, empty, held};
ghost use Rattle.stores.specs.Cells.{flat_place, packed_place, is_empty, word_value, Numbered, Holds};

use crate::cell::{FlatCell, PackedCell};
use facts::{Fact, Kind};
use std::marker::PhantomData;

// A cell means a place, which is empty or holds a fact of the cell's kind.
pub trait Cell: Copy {
    type Value: Kind;

    ghost place: { Self → Place Meaning };

    // The number at the place, 0 where it is empty.
    fn number(&self) -> u32
        ensures { Numbered (place self.now) result };

    // Whether the place is empty.
    fn is_empty(&self) -> bool
        ensures { result ≡ is_empty (place self.now) }
    {
        self.number() == 0
    }

    // What the place holds.
    fn content(&self) -> Option<(u32, Fact<Self::Value>)>
        ensures { Holds Self.Value.meaning (place self.now) result };

    // The cell that holds the fact under the number.
    fn holding(number: u32, fact: &Fact<Self::Value>) -> Self
        ensures { 0 < number → fact.now.count ≤ 3 → place result ≡ held number (meaning Self.Value.meaning fact.now) };

    // The cell emptied.
    fn emptied(&self) -> Self
        ensures { place result ≡ empty };
}

impl<V: Kind> Cell for FlatCell<V> {
    type Value = V;

    ghost place = { flat_place V.Kind.meaning };

    fn number(&self) -> u32 {
        self.number
    }

    fn content(&self) -> Option<(u32, Fact<V>)> {
        if self.number == 0 {
            return None;
        }
        Some((self.number, self.fact.cut()))
    }

    fn holding(number: u32, fact: &Fact<V>) -> FlatCell<V> {
        FlatCell {
            number,
            fact: *fact,
        }
    }

    fn emptied(&self) -> FlatCell<V> {
        FlatCell { number: 0, ..*self }
    }
}

// The label of a name and a count.
fn label_of(name: u8, count: u8) -> u32
    ensures name { result / 256 % 256 ≡ name }
    ensures count { result % 256 ≡ count }
{
    u32::from_le_bytes([count, name, 0, 0])
}

// The word of the argument at an index, counted from the low end; 0 where the argument is spare.
fn word_of<V: Kind>(count: u8, at: u8, value: V) -> u32
    ensures kept { at < count → V.Kind.low +ℤ pos result ≡ V.Kind.meaning value }
    ensures spare { count ≤ at → result ≡ 0 }
{
    if at < count {
        value.read().abs_diff(V::low())
    } else {
        0
    }
}

// The value of an argument's word; a word past the high end is read as the high end.
fn value_of<V: Kind>(word: u32) -> V
    ensures { V.Kind.meaning result ≡ word_value V.Kind.low V.Kind.high word }
{
    let n = V::low().saturating_add_unsigned(word).min(V::high());
    let Some(value) = V::make(n) else {
        unreachable()
    };
    value
}

impl<V: Kind> Cell for PackedCell<V> {
    type Value = V;

    ghost place = { packed_place V.Kind.low V.Kind.high };

    fn number(&self) -> u32 {
        self.number
    }

    fn content(&self) -> Option<(u32, Fact<V>)> {
        if self.number == 0 {
            return None;
        }
        let [count, name, _, _] = self.label.to_le_bytes();
        let args = (
            value_of(self.first),
            value_of(self.second),
            value_of(self.third),
        );
        Some((self.number, Fact { name, count, args }.cut()))
    }

    fn holding(number: u32, fact: &Fact<V>) -> PackedCell<V> {
        PackedCell {
            number,
            label: label_of(fact.name, fact.count),
            first: word_of(fact.count, 0, fact.args.0),
            second: word_of(fact.count, 1, fact.args.1),
            third: word_of(fact.count, 2, fact.args.2),
            kind: PhantomData,
        }
    }

    fn emptied(&self) -> PackedCell<V> {
        PackedCell {
            number: 0,
            label: 0,
            first: 0,
            second: 0,
            third: 0,
            kind: PhantomData,
        }
    }
}
