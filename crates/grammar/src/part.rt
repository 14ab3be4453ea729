ghost use Rattle.std.specs.Prelude.{◌≡◌, pos};
ghost use Rattle.grammar.specs.declared.part.Operand.TheVariants.{Const};
ghost use Rattle.grammar.specs.declared.part.Term.TheVariants.{One};
ghost use Rattle.grammar.specs.Tests.{NamesTest};

pub use args::Args;
use std::fmt;

// A variable (0 to 7) or a constant.
#[derive(Clone, Copy, PartialEq, Debug)]
pub enum Operand {
    Var(u8),
    Const(i32),
}

impl Default for Operand {
    ghost is_default = { λ operand. operand ≡ Const (pos 0) };

    fn default() -> Operand {
        Operand::Const(0)
    }
}

// An operand, or the sum or difference of two.
#[derive(Clone, Copy, PartialEq, Debug)]
pub enum Term {
    One(Operand),
    Sum(Operand, Operand),
    Diff(Operand, Operand),
}

impl Default for Term {
    ghost is_default = { λ term. term ≡ One (Const (pos 0)) };

    fn default() -> Term {
        Term::One(Operand::default())
    }
}

// How a guard compares its two terms.
#[derive(Clone, Copy, PartialEq, Default, Debug)]
pub enum Test {
    #[default]
    Equal,
    NotEqual,
    Less,
    AtMost,
}

// A number that names no test.
#[derive(Clone, Copy, PartialEq, Debug)]
pub struct UnknownTest(pub u8);

impl TryFrom<u8> for Test {
    type Error = UnknownTest;

    ghost try_from_gives = { NamesTest };

    fn try_from(number: u8) -> Result<Test, UnknownTest> {
        match number {
            0 => Ok(Test::Equal),
            1 => Ok(Test::NotEqual),
            2 => Ok(Test::Less),
            3 => Ok(Test::AtMost),
            _ => Err(UnknownTest(number)),
        }
    }
}

// A name and arguments.
#[derive(Clone, Copy, PartialEq, Default)]
pub struct Atom<A> {
    pub name: u8,
    pub args: Args<A>,
}

// What a fact must be like.
pub type Head = Atom<Operand>;

// A fact to be written.
pub type BodyFact = Atom<Term>;

// Shown as what it is, a head or a body fact.
impl fmt::Debug for Head {
    fn fmt<W: fmt::Write>(&self, f: &mut fmt::Formatter<W>) -> fmt::Result {
        f.debug_struct("Head")
            .field("name", &self.name)
            .field("args", &self.args)
            .finish()
    }
}

impl fmt::Debug for BodyFact {
    fn fmt<W: fmt::Write>(&self, f: &mut fmt::Formatter<W>) -> fmt::Result {
        f.debug_struct("BodyFact")
            .field("name", &self.name)
            .field("args", &self.args)
            .finish()
    }
}

#[derive(Clone, Copy, PartialEq, Default, Debug)]
pub struct Guard {
    pub test: Test,
    pub left: Term,
    pub right: Term,
}
