ghost use Rattle.std.specs.Prelude.{◌≡◌, List, ℕ, []};
ghost use Rattle.writer.specs.Stages.{IsBegun};
ghost use Rattle.writer.specs.Tables.{Tabled};
ghost use Rattle.writer.specs.Calls.{Begins, Opens, Ends, Completes};

use crate::add::add_words;
use crate::code::word_of;
use crate::refusal::{Refusal, Refused};
use crate::table::{Begun, OpenRule, TableWriter};
use crate::tally::Tally;
use grammar::MOST_RULES;
use std::marker::PhantomData;
use words::Kind;

impl TableWriter {
    // A table with no rule.
    pub fn new() -> TableWriter
        ensures state { result ≡ record { used = 0; rules = 0; last = 0 } }
        ensures table { (memory : List ℕ) → Tabled result memory [] }
    {
        TableWriter {
            used: 0,
            rules: 0,
            last: 0,
        }
    }

    // The same table, when a call is refused.
    fn refused(self, why: Refusal) -> Refused<TableWriter>
        ensures { result ≡ record { state = self; why = why; used = self.used } }
    {
        Refused {
            used: self.used,
            state: self,
            why,
        }
    }

    // Begins a rule.
    pub fn begin(
        self,
        memory: &mut [u32],
        label: u16,
    ) -> Result<(Begun, usize), Refused<TableWriter>>
        ensures does { Begins self label memory.old memory.new result }
        ensures table { Opens IsBegun self label memory.old memory.new result }
    {
        if self.rules >= MOST_RULES {
            return Err(self.refused(Refusal::OutOfRange));
        }
        if label <= self.last {
            return Err(self.refused(Refusal::LabelOrder));
        }
        match add_words(memory, self.used, &[word_of(Kind::Rule, u32::from(label))]) {
            Ok(used) => {
                let TableWriter {
                    used: _,
                    rules,
                    last: _,
                } = self;
                let tally = Tally {
                    used,
                    rules: rules + 1,
                    label,
                    variables: 0,
                    heads: 0,
                    guards: 0,
                    body: 0,
                };
                let rule = OpenRule {
                    tally,
                    stage: PhantomData,
                };
                Ok((rule, used))
            }
            Err(why) => Err(self.refused(why)),
        }
    }

    // Ends the table; answers its words.
    pub fn end(self, memory: &mut [u32]) -> Result<usize, Refused<TableWriter>>
        ensures does { Ends self memory.old memory.new result }
        ensures table { Completes self memory.old memory.new result }
    {
        match add_words(memory, self.used, &[word_of(Kind::End, 0)]) {
            Ok(_) => Ok(self.give_up() + 1),
            Err(why) => Err(self.refused(why)),
        }
    }

    // Gives the table up; the words so far are no table.
    pub fn give_up(self) -> usize
        ensures { result ≡ self.used }
    {
        let TableWriter {
            used: words,
            rules: _,
            last: _,
        } = self;
        words
    }
}
