ghost use Rattle.std.specs.Iterator.{IsFinite};

use grammar::{Atom, Guard, LAST_VAR, Operand, Rule, Term, Test};
use std::fmt;

// What a listing writes of a rule and of its parts.
pub(crate) trait Listed: Copy {
    fn list<W: fmt::Write>(self, f: &mut fmt::Formatter<W>) -> fmt::Result;
}

// Shows what it holds as a listing writes it.
#[derive(Clone, Copy)]
pub(crate) struct Text<T: Listed>(pub T);

impl<T: Listed> fmt::Display for Text<T> {
    fn fmt<W: fmt::Write>(&self, f: &mut fmt::Formatter<W>) -> fmt::Result {
        self.0.list(f)
    }
}

// A variable's letter: A for 0 to H for 7.
fn letter(variable: u8) -> char {
    if variable <= LAST_VAR {
        char::from(b'A' + variable)
    } else {
        '?'
    }
}

impl Listed for Operand {
    fn list<W: fmt::Write>(self, f: &mut fmt::Formatter<W>) -> fmt::Result {
        match self {
            Operand::Var(v) => write!(f, "{}", letter(v)),
            Operand::Const(n) => write!(f, "{n}"),
        }
    }
}

impl Listed for Term {
    fn list<W: fmt::Write>(self, f: &mut fmt::Formatter<W>) -> fmt::Result {
        match self {
            Term::One(a) => a.list(f),
            Term::Sum(a, b) => write!(f, "{} + {}", Text(a), Text(b)),
            Term::Diff(a, b) => write!(f, "{} - {}", Text(a), Text(b)),
        }
    }
}

impl<A: Listed> Listed for Atom<A> {
    fn list<W: fmt::Write>(self, f: &mut fmt::Formatter<W>) -> fmt::Result {
        write!(f, "{}", self.name)?;
        if self.args.len() == 0 {
            return Ok(());
        }
        f.write_str("(")?;
        list_all(self.args.into_iter(), f)?;
        f.write_str(")")
    }
}

impl Listed for Guard {
    fn list<W: fmt::Write>(self, f: &mut fmt::Formatter<W>) -> fmt::Result {
        let test = match self.test {
            Test::Equal => "=",
            Test::NotEqual => "/=",
            Test::Less => "<",
            Test::AtMost => "=<",
        };
        write!(f, "{} {test} {}", Text(self.left), Text(self.right))
    }
}

// A rule on one line: what it keeps, what it takes, under which guards, and what it adds.
impl Listed for &Rule {
    fn list<W: fmt::Write>(self, f: &mut fmt::Formatter<W>) -> fmt::Result {
        write!(f, "rule {}: keeps ", self.label)?;
        list_or(&self.kept, "nothing", f)?;
        f.write_str("; takes ")?;
        list_or(&self.taken, "nothing", f)?;
        f.write_str(if self.guards.is_empty() {
            "; "
        } else {
            "; if "
        })?;
        list_or(&self.guards, "unguarded", f)?;
        f.write_str("; adds ")?;
        list_or(&self.body, "nothing", f)
    }
}

// The items with commas between them, or a word for none.
fn list_or<T: Listed, W: fmt::Write>(
    items: &[T],
    none: &str,
    f: &mut fmt::Formatter<W>,
) -> fmt::Result {
    if items.is_empty() {
        return f.write_str(none);
    }
    list_all(items.iter().copied(), f)
}

// The items with commas between them.
fn list_all<T: Listed, I: Iterator<Item = T>, W: fmt::Write>(
    items: I,
    f: &mut fmt::Formatter<W>,
) -> fmt::Result
    requires next { I.can_next items }
    requires ends { IsFinite (I.remaining items) }
{
    let mut first = true;
    for item in items {
        if !first {
            f.write_str(", ")?;
        }
        first = false;
        item.list(f)?;
    }
    Ok(())
}
