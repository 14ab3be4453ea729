ghost use Rattle.std.specs.Prelude.{◌≡◌, Some};
ghost use Rattle.answers.specs.Answers.{answered, load_line};

use rules::{Loaded, Refusal};
use std::fmt;

// A load's answer as its number and two numbers more, shown as the line that says so.
// Numbers and no enum: these three are what the line prints, and are made where it is printed.
#[derive(Clone, Copy)]
pub struct LoadAnswer {
    pub code: u32,
    pub p: usize,
    pub q: usize,
}

impl From<&Result<Loaded, Refusal>> for LoadAnswer {
    ghost from_gives = { λ loaded answer. answer ≡ answered loaded.now };

    fn from(res: &Result<Loaded, Refusal>) -> LoadAnswer {
        match res {
            Ok(loaded) => LoadAnswer {
                code: 0,
                p: loaded.table.rules().len(),
                q: loaded.used,
            },
            Err(refusal) => LoadAnswer {
                code: u32::from(refusal.fault),
                p: refusal.place,
                q: refusal.rules,
            },
        }
    }
}

impl fmt::Display for LoadAnswer {
    ghost output = { λ answer. Some (load_line answer) };

    fn fmt<W: fmt::Write>(&self, f: &mut fmt::Formatter<W>) -> fmt::Result {
        let LoadAnswer { code, p, q } = *self;
        write!(f, "load {code} {p} {q}")
    }
}
