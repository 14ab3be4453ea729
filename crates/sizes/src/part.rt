ghost use Rattle.std.specs.Prelude.{◌≡◌, ℕ, ◌≤◌};
ghost use Rattle.std.proofs.Common.{arith};
ghost use Rattle.grammar.specs.declared.part.Term.TheVariants.{One, Sum, Diff};
ghost use Rattle.grammar.specs.Sizes.{operand_size, term_size, atom_size, guard_size};

use grammar::{Atom, Guard, Operand, Term};

// What is written as words.
pub(crate) trait Written: Copy {
    ghost size: { Self → ℕ };

    // How many words it is written as.
    fn size(self) -> usize
        ensures value { result ≡ size self }
        ensures bound { result ≤ 10 };
}

// What a head or a body fact has as arguments: three words at most.
pub(crate) trait Argument: Written {
    ghost few: { (x : Self) → Self.Written.size x ≤ 3 };
}

impl Written for Operand {
    ghost size = { operand_size };

    fn size(self) -> usize {
        1
    }
}

impl Argument for Operand {
    ghost few = { λ a. omega arith };
}

impl Written for Term {
    ghost size = { term_size };

    fn size(self) -> usize {
        match self {
            Term::One(_) => 1,
            Term::Sum(_, _) | Term::Diff(_, _) => 3,
        }
    }
}

impl Argument for Term {
    ghost few = { elim [ One a ↦ omega arith | Sum a b ↦ omega arith | Diff a b ↦ omega arith ] };
}

impl<A: Argument> Written for Atom<A> {
    ghost size = { atom_size A.size };

    fn size(self) -> usize {
        // As a chain the value proves, but not that the sum fits, nor its bound.
        let mut size = 1;
        for argument in self.args {
            size += argument.size();
        }
        size
    }
}

impl Written for Guard {
    ghost size = { guard_size };

    fn size(self) -> usize {
        1 + self.left.size() + self.right.size()
    }
}
