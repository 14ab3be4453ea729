ghost use Rattle.std.specs.Prelude.{◌≡◌, ℕ, ◌+◌, ◌-◌, ◌*◌, ◌/◌, ◌%◌, ◌^◌, ◌<◌, ◌≤◌, List, [], ◌∷◌, ◌++◌, MatchOption};
ghost use Rattle.std.specs.List.{flat_map, AllByRecursion};
ghost use Rattle.words.specs.Words.{word, tag};
ghost use Rattle.args.specs.Listed.{listed, amount};
ghost use Rattle.grammar.specs.Writing.{operand_words, term_words, atom_words, head_words, guard_words, body_words, test_number, FormedOperand, FormedTerm, FormedAtom, FormedHead, FormedGuard, FormedBody};
ghost use Rattle.arrayvec.specs.ArrayVec.{array_vec_len};
ghost use Rattle.writer.specs.Tallies.{Formed, part_words};

use crate::part::Part;
use arrayvec::ArrayVec;
use grammar::{Args, Atom, Guard, LAST_VAR, Operand, Term, Test};
use words::{Kind, Word, constant_word, fact_word};

// The words of a part: a first word, and at most three for each of three arguments.
pub type Code = ArrayVec<u32, 10>;

// The word of a kind and a payload.
pub(crate) fn word_of(kind: Kind, payload: u32) -> u32
    requires { payload < 2 ^ 28 }
    ensures { result ≡ word (tag kind) payload }
{
    u32::from(Word { kind, payload })
}

// The word of an operand; none if its number is out of range.
fn operand_word(operand: Operand) -> Option<u32>
    ensures { MatchOption result (FormedOperand operand → ⊥) (λ w. FormedOperand operand × (w ∷ [] ≡ operand_words operand)) }
{
    match operand {
        Operand::Var(v) if v > LAST_VAR => None,
        Operand::Var(v) => Some(word_of(Kind::Var, u32::from(v))),
        Operand::Const(n) => constant_word(n),
    }
}

// What a head or a body fact has as arguments.
pub trait Argument: Copy {
    ghost words: { Self → List ℕ };

    ghost formed: { Self → Type 0 };

    // Its words; none if a number is out of range.
    fn words(self) -> Option<Args<u32>>
        ensures { MatchOption result (formed self → ⊥) (λ ws. formed self × (listed ws ≡ words self)) };
}

impl Argument for Operand {
    ghost words = { operand_words };

    ghost formed = { FormedOperand };

    fn words(self) -> Option<Args<u32>> {
        Some(Args::One(operand_word(self)?))
    }
}

impl Argument for Term {
    ghost words = { term_words };

    ghost formed = { FormedTerm };

    fn words(self) -> Option<Args<u32>> {
        match self {
            Term::One(a) => Some(Args::One(operand_word(a)?)),
            Term::Sum(a, b) => Some(Args::Three(
                word_of(Kind::Sum, 0),
                operand_word(a)?,
                operand_word(b)?,
            )),
            Term::Diff(a, b) => Some(Args::Three(
                word_of(Kind::Diff, 0),
                operand_word(a)?,
                operand_word(b)?,
            )),
        }
    }
}

// Puts the words of an argument behind the others.
fn push_all(code: &mut Code, words: Args<u32>)
    requires { array_vec_len code.old + amount words ≤ 10 }
    ensures items { code.new.items ≡ code.old.items ++ listed words }
    ensures len { array_vec_len code.new ≡ array_vec_len code.old + amount words }
{
    for word in words {
        code.push(word);
    }
}

// What is written as words.
pub trait Encode: Copy {
    ghost words: { ℕ → Self → List ℕ };

    ghost formed: { Self → Type 0 };

    // Its words, the first of this kind; none if a number is out of range.
    fn code(self, kind: Kind) -> Option<Code>
        ensures { MatchOption result (formed self → ⊥) (λ c. formed self × (c.items ≡ words (tag kind) self)) };
}

impl<A: Argument> Encode for Atom<A> {
    ghost words = { atom_words A.words };

    ghost formed = { FormedAtom A.formed };

    fn code(self, kind: Kind) -> Option<Code> {
        let mut code = Code::new();
        code.push(fact_word(kind, self.name, self.args.len() as u8)?);
        for argument in self.args {
            push_all(&mut code, argument.words()?);
        }
        Some(code)
    }
}

impl Encode for Guard {
    ghost words = { λ k guard. word k (test_number guard.test) ∷ (term_words guard.left ++ term_words guard.right) };

    ghost formed = { FormedGuard };

    fn code(self, kind: Kind) -> Option<Code> {
        let left = self.left.words()?;
        let right = self.right.words()?;
        let mut code = Code::new();
        code.push(word_of(kind, self.test as u32));
        push_all(&mut code, left);
        push_all(&mut code, right);
        Some(code)
    }
}

impl Part {
    // Its words; none if a number is out of range.
    pub fn code(self) -> Option<Code>
        ensures { MatchOption result (Formed self → ⊥) (λ c. Formed self × (c.items ≡ part_words self)) }
    {
        match self {
            Part::Kept(head) => head.code(Kind::Kept),
            Part::Taken(head) => head.code(Kind::Taken),
            Part::Guard(guard) => guard.code(Kind::Guard),
            Part::Body(fact) => fact.code(Kind::Body),
        }
    }
}
