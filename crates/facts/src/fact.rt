ghost use Rattle.std.specs.Prelude.{◌≡◌};
ghost use Rattle.std.proofs.Common.{rules};
ghost use Rattle.std.specs.Cmp.Rules.{comparing};
ghost use Rattle.facts.specs.Meanings.{meaning, read_meaning};
ghost use Rattle.facts.specs.Reads.{as_read, alike, ReadAlike, Decides, cut, Argument, Written};

use crate::kind::Kind;

// The most arguments that a fact has.
pub const MOST_ARGS: u8 = 3;

// A fact: a name, a count and three argument values; those past the count are spare.
// Three values whatever the count, the spare ones too: a fact has a fixed size, takes no heap, and is copied as it is.
#[derive(Clone, Copy)]
pub struct Fact<V> {
    pub name: u8,
    pub count: u8,
    pub args: (V, V, V),
}

// A fact read field by field: its arguments are whole numbers. Only such facts are ever compared.
pub type ReadFact = Fact<i32>;

// Read facts are equal when they mean the same: equal names, counts and first count arguments.
impl PartialEq for Fact<i32> {
    ghost eq = { alike };

    ghost laws = { Prim.search (comparing, rules) };

    fn eq(&self, other: &ReadFact) -> bool
        ensures same { result ≡ alike self.now other.now }
        ensures means { Decides (read_meaning self.now ≡ read_meaning other.now) result }
    {
        let (a, b) = (self.args, other.args);
        (self.name, self.count) == (other.name, other.count)
            && (self.count < 1 || a.0 == b.0)
            && (self.count < 2 || a.1 == b.1)
            && (self.count < 3 || a.2 == b.2)
    }
}

// The argument at an index: a value of the number or, past the count, of the low end.
fn argument<V: Kind>(count: u8, at: u8, n: i32) -> Option<V>
    ensures { Argument V.Kind.low V.Kind.high V.Kind.meaning count at n result }
{
    if at < count {
        V::make(n)
    } else {
        V::make(V::low())
    }
}

impl<V: Copy> Fact<V> {
    // The fact with its count cut to 3.
    pub fn cut(&self) -> Fact<V>
        ensures { result ≡ cut self.now }
    {
        Fact {
            count: self.count.min(MOST_ARGS),
            ..*self
        }
    }
}

impl<V: Kind> Fact<V> {
    // Reads the fact field by field.
    pub fn read(&self) -> ReadFact
        ensures value { result ≡ as_read V.Kind.meaning self.now }
        ensures means { read_meaning result ≡ meaning V.Kind.meaning self.now }
        ensures alike { ReadAlike V.Kind.meaning }
    {
        let (a, b, c) = self.args;
        Fact {
            name: self.name,
            count: self.count,
            args: (a.read(), b.read(), c.read()),
        }
    }

    // A fact that reads as this one as far as its count; the arguments past the count mean the low end.
    pub fn make(read: ReadFact) -> Option<Fact<V>>
        ensures { Written V.Kind.low V.Kind.high V.Kind.meaning read result }
    {
        if read.count > MOST_ARGS {
            return None;
        }
        let (a, b, c) = read.args;
        Some(Fact {
            name: read.name,
            count: read.count,
            args: (
                argument(read.count, 0, a)?,
                argument(read.count, 1, b)?,
                argument(read.count, 2, c)?,
            ),
        })
    }
}
