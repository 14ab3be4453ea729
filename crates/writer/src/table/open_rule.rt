ghost use Rattle.std.specs.Prelude.{◌≡◌, List, ℕ, [], ◌∷◌, ◌++◌};
ghost use Rattle.grammar.specs.Parts.{Parts};
ghost use Rattle.writer.specs.Stages.{IsBegun, IsTaking, IsGuarding, IsFilling};
ghost use Rattle.writer.specs.Tables.{Tabled, Opened, closed_table};
ghost use Rattle.writer.specs.Calls.{Adds, Grows};

use crate::part::Part;
use crate::refusal::Refused;
use crate::stage::{MayClose, MayGuard, MayTake};
use crate::table::{Begun, Filling, Guarding, OpenRule, TableWriter, Taking};
use grammar::{BodyFact, Guard, Head};
use std::marker::PhantomData;

impl<S> OpenRule<S> {
    // A part more; the rule has come to the stage that is asked for.
    fn add<T>(
        self,
        memory: &mut [u32],
        part: Part,
    ) -> Result<(OpenRule<T>, usize), Refused<OpenRule<S>>>
        ensures { Adds self part memory.old memory.new result }
    {
        let OpenRule { tally, stage } = self;
        match tally.add(memory, part) {
            Ok(next) => Ok((
                OpenRule {
                    tally: next,
                    stage: PhantomData,
                },
                next.used,
            )),
            Err(why) => Err(Refused {
                state: OpenRule { tally, stage },
                why,
                used: tally.used,
            }),
        }
    }
}

impl Begun {
    // A kept head more.
    pub fn keep(self, memory: &mut [u32], head: Head) -> Result<(Begun, usize), Refused<Begun>>
        ensures does { Adds self (Part.Kept head) memory.old memory.new result }
        ensures table { Grows IsBegun IsBegun self (Part.Kept head) memory.old memory.new result }
    {
        self.add(memory, Part::Kept(head))
    }

    // Gives the table up; the words so far are no table.
    pub fn give_up(self) -> usize
        ensures { result ≡ self.tally.used }
    {
        let OpenRule { tally, stage: _ } = self;
        tally.used
    }
}

impl<S: MayTake> OpenRule<S> {
    // A taken head more.
    pub fn take(
        self,
        memory: &mut [u32],
        head: Head,
    ) -> Result<(Taking, usize), Refused<OpenRule<S>>>
        ensures does { Adds self (Part.Taken head) memory.old memory.new result }
        ensures table { Grows S.reached IsTaking self (Part.Taken head) memory.old memory.new result }
    {
        self.add(memory, Part::Taken(head))
    }
}

impl<S: MayGuard> OpenRule<S> {
    // A guard more.
    pub fn guard(
        self,
        memory: &mut [u32],
        guard: Guard,
    ) -> Result<(Guarding, usize), Refused<OpenRule<S>>>
        ensures does { Adds self (Part.Guard guard) memory.old memory.new result }
        ensures table { Grows S.reached IsGuarding self (Part.Guard guard) memory.old memory.new result }
    {
        self.add(memory, Part::Guard(guard))
    }
}

impl<S: MayClose> OpenRule<S> {
    // A body fact more.
    pub fn fill(
        self,
        memory: &mut [u32],
        fact: BodyFact,
    ) -> Result<(Filling, usize), Refused<OpenRule<S>>>
        ensures does { Adds self (Part.Body fact) memory.old memory.new result }
        ensures table { Grows S.reached IsFilling self (Part.Body fact) memory.old memory.new result }
    {
        self.add(memory, Part::Body(fact))
    }

    // Closes the rule.
    pub fn close(self) -> (TableWriter, usize)
        ensures state { (result.0 ≡ closed_table self.tally) × (result.1 ≡ self.tally.used) }
        ensures table { (memory : List ℕ) (rs : List Parts) (p : Parts) → Opened self.tally memory rs p → S.reached p → Tabled result.0 memory (rs ++ p ∷ []) }
    {
        let OpenRule { tally, stage: _ } = self;
        let table = TableWriter {
            used: tally.used,
            rules: tally.rules,
            last: tally.label,
        };
        (table, tally.used)
    }
}
