ghost use Rattle.std.specs.Prelude.{◌≡◌, [], ◌∷◌, map, take, ◌≤ℤ◌};
ghost use Rattle.std.specs.List.{list_all};
ghost use Rattle.facts.specs.Meanings.{read_meaning};
ghost use Rattle.args.specs.Listed.{listed, amount};
ghost use Rattle.matching.specs.Terms.{term_value};
ghost use Rattle.matching.specs.Applying.{fact_within, clamped, written};
ghost use Rattle.matching.specs.Written.{Between};

use crate::ends::Ends;
use crate::values::Values;
use facts::ReadFact;
use grammar::{Args, BodyFact, Term};

// Whether every value of a body fact lies between the ends.
// Values and ends stay two parameters, here and below: what variables mean and what a kind allows change apart, and other functions take one.
fn fact_within(fact: &BodyFact, values: &Values, ends: Ends) -> bool
    ensures { result ≡ fact_within ends.low ends.high values.now.numbers fact.now }
{
    fact.args
        .into_iter()
        .all(|term| ends.hold(values.term(term)))
}

// Whether every value of every body fact does.
pub(crate) fn body_within(body: &[BodyFact], values: &Values, ends: Ends) -> bool
    ensures { result ≡ list_all (fact_within ends.low ends.high values.now.numbers) body.now }
{
    body.iter().all(|fact| fact_within(fact, values, ends))
}

// The arguments of a written fact; the spare ones are the low end.
fn args_written(args: Args<Term>, values: &Values, ends: Ends) -> (i32, i32, i32)
    ensures numbers { take (amount args) (result.0 ∷ (result.1 ∷ (result.2 ∷ []))) ≡ map (λ t. clamped ends.low ends.high (term_value values.now.numbers t)) (listed args) }
    ensures between { ends.low ≤ℤ ends.high → Between ends.low ends.high result }
{
    let number = |term| ends.nearest(values.term(term));
    match args {
        Args::Zero => (ends.low, ends.low, ends.low),
        Args::One(a) => (number(a), ends.low, ends.low),
        Args::Two(a, b) => (number(a), number(b), ends.low),
        Args::Three(a, b, c) => (number(a), number(b), number(c)),
    }
}

// The fact that a body fact writes.
pub(crate) fn fact_written(fact: &BodyFact, values: &Values, ends: Ends) -> ReadFact
    ensures meaning { read_meaning result ≡ written ends.low ends.high values.now.numbers fact.now }
    ensures between { ends.low ≤ℤ ends.high → Between ends.low ends.high result.args }
{
    ReadFact {
        name: fact.name,
        count: fact.args.len() as u8,
        args: args_written(fact.args, values, ends),
    }
}
