ghost use Rattle.std.specs.Prelude.{◌≡◌, [], ◌∷◌};
ghost use Rattle.std.specs.List.{list_all};
ghost use Rattle.args.specs.Listed.{listed};
ghost use Rattle.matching.specs.Terms.{operand_value, term_value, holds};
ghost use Rattle.matching.specs.Heads.{met_args, unbound, bind_one, bind_all, agree};

use facts::ReadFact;
use grammar::{Args, Guard, Head, Operand, Term, Test};

const VARIABLES: usize = 8;

// What the variables of a rule mean: a number each.
#[derive(Clone, Copy)]
pub(crate) struct Values {
    pub(crate) numbers: [i32; VARIABLES],
}

impl Values {
    // Each variable is 0 until it meets a number.
    pub(crate) fn unbound() -> Values
        ensures { result.numbers ≡ unbound }
    {
        Values {
            numbers: [0; VARIABLES],
        }
    }

    // The value of an operand; a variable past the last is 0.
    fn operand(&self, operand: Operand) -> i32
        ensures { result ≡ operand_value self.now.numbers operand }
    {
        match operand {
            Operand::Var(v) => self.numbers.get(usize::from(v)).copied().unwrap_or(0),
            Operand::Const(c) => c,
        }
    }

    // The value of a term, wide enough never to wrap.
    pub(crate) fn term(&self, term: Term) -> i64
        ensures { result ≡ term_value self.now.numbers term }
    {
        match term {
            Term::One(a) => i64::from(self.operand(a)),
            Term::Sum(a, b) => i64::from(self.operand(a)) + i64::from(self.operand(b)),
            Term::Diff(a, b) => i64::from(self.operand(a)) - i64::from(self.operand(b)),
        }
    }

    // Whether a guard holds.
    fn hold(&self, guard: &Guard) -> bool
        ensures { result ≡ holds self.now.numbers guard.now }
    {
        let left = self.term(guard.left);
        let right = self.term(guard.right);
        match guard.test {
            Test::Equal => left == right,
            Test::NotEqual => left != right,
            Test::Less => left < right,
            Test::AtMost => left <= right,
        }
    }

    // Whether all of these guards hold.
    pub(crate) fn all_hold(&self, guards: &[Guard]) -> bool
        ensures { result ≡ list_all (holds self.now.numbers) guards.now }
    {
        guards.iter().all(|guard| self.hold(guard))
    }

    // A variable takes the number that it meets; one past the last takes none.
    fn set(&mut self, operand: Operand, number: i32)
        ensures { self.new.numbers ≡ bind_one self.old.numbers operand number }
    {
        if let Operand::Var(v) = operand {
            let index = usize::from(v);
            // Not through `get_mut`: its contract says nothing of what the numbers then are.
            if index < self.numbers.len() {
                self.numbers[index] = number;
            }
        }
    }

    // Each variable of a head takes the number that it meets in the fact. A head meets no spare number of a fact that fits.
    pub(crate) fn bind(&mut self, head: &Head, fact: &ReadFact)
        ensures { self.new.numbers ≡ bind_all self.old.numbers (met_args (listed head.now.args) (fact.now.args.0 ∷ (fact.now.args.1 ∷ (fact.now.args.2 ∷ [])))) }
    {
        let (first, second, third) = fact.args;
        match head.args {
            Args::Zero => {}
            Args::One(a) => self.set(a, first),
            Args::Two(a, b) => {
                self.set(a, first);
                self.set(b, second);
            }
            Args::Three(a, b, c) => {
                self.set(a, first);
                self.set(b, second);
                self.set(c, third);
            }
        }
    }

    // Whether each operand of a head means the number that it meets in the fact, as `bind` pairs them.
    pub(crate) fn agree(&self, head: &Head, fact: &ReadFact) -> bool
        ensures { result ≡ agree self.now.numbers (met_args (listed head.now.args) (fact.now.args.0 ∷ (fact.now.args.1 ∷ (fact.now.args.2 ∷ [])))) }
    {
        let (first, second, third) = fact.args;
        match head.args {
            Args::Zero => true,
            Args::One(a) => self.operand(a) == first,
            Args::Two(a, b) => self.operand(a) == first && self.operand(b) == second,
            Args::Three(a, b, c) => {
                self.operand(a) == first && self.operand(b) == second && self.operand(c) == third
            }
        }
    }
}
