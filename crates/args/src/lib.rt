// None to three arguments of a head or a body fact.
#![tactic(auto)]

ghost use Rattle.std.specs.Prelude.{◌≡◌, ◌≤◌};
ghost use Rattle.std.specs.Iterator.{YieldsFirst, item_count};
ghost use Rattle.args.specs.Listed.{listed, amount};

// An amount above three cannot be said. No vector of fixed capacity: that is not `Copy`, and parts are copied as they are.
#[derive(Clone, Copy, PartialEq, Default, Debug)]
pub enum Args<T> {
    #[default]
    Zero,
    One(T),
    Two(T, T),
    Three(T, T, T),
}

impl<T: Copy> Args<T> {
    // How many arguments there are.
    pub fn len(self) -> usize
        ensures value { result ≡ amount self }
        ensures bound { result ≤ 3 }
    {
        match self {
            Args::Zero => 0,
            Args::One(_) => 1,
            Args::Two(_, _) => 2,
            Args::Three(_, _, _) => 3,
        }
    }
}

// Gives the arguments in order, by value.
#[derive(Clone, Copy)]
pub struct IntoIter<T> {
    rest: Args<T>,
}

impl<T: Copy> Iterator for IntoIter<T> {
    type Item = T;

    ghost next_gives = { YieldsFirst (λ s. listed s.rest) };

    ghost remaining = { item_count (λ s. listed s.rest) };

    fn next(&mut self) -> Option<T> {
        let (first, rest) = match self.rest {
            Args::Zero => return None,
            Args::One(a) => (a, Args::Zero),
            Args::Two(a, b) => (a, Args::One(b)),
            Args::Three(a, b, c) => (a, Args::Two(b, c)),
        };
        self.rest = rest;
        Some(first)
    }
}

impl<T: Copy> IntoIterator for Args<T> {
    type Item = T;

    type IntoIter = IntoIter<T>;

    ghost into_iter_gives = { λ s it. listed it.rest ≡ listed s };

    fn into_iter(self) -> IntoIter<T> {
        IntoIter { rest: self }
    }
}

#[cfg(test)]
mod tests;
