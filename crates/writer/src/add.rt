ghost use Rattle.std.specs.Prelude.{◌≡◌, ℕ, ◌+◌, ◌^◌, ◌<◌, ◌≤◌, List, [], ◌∷◌, length, Decides, MatchResult};
ghost use Rattle.writer.specs.Memory.{placed};
ghost use Rattle.writer.specs.Refusals.{Room};
ghost use Rattle.writer.specs.Tallies.{Formed, HasPlace, IsBound, part_words, added};
ghost use Rattle.writer.specs.Calls.{Added, NotAdded};
ghost use Rattle.writer.specs.declared.refusal.Refusal.TheVariants.{NoRoom};

use crate::part::Part;
use crate::refusal::Refusal;
use crate::tally::Tally;
use crate::variables::{bind_head, is_within};
use grammar::{MOST_BODY, MOST_GUARDS, MOST_HEADS};

// Puts words from a place on; gives the place after them.
pub(crate) fn put_words(memory: &mut [u32], at: usize, words: &[u32]) -> usize
    requires { at + length words.now ≤ length memory.old }
    ensures memory { memory.new ≡ placed at words.now memory.old }
    ensures value { result ≡ at + length words.now }
{
    let end = at + words.len();
    memory[at..end].copy_from_slice(words);
    end
}

// Puts words behind the words so far.
pub(crate) fn add_words(memory: &mut [u32], used: usize, words: &[u32]) -> Result<usize, Refusal>
    ensures { MatchResult result (λ n. (n ≡ used + length words.now) × Room used words.now memory.old × (memory.new ≡ placed used words.now memory.old)) (λ e. (e ≡ NoRoom) × (Room used words.now memory.old → ⊥) × (memory.new ≡ memory.old)) }
{
    if used > memory.len() || words.len() > memory.len() - used {
        return Err(Refusal::NoRoom);
    }
    Ok(put_words(memory, used, words))
}

impl Tally {
    // Whether the rule may have one part more of this sort.
    fn has_place(self, part: Part) -> bool
        ensures { Decides result (HasPlace self part) }
    {
        match part {
            Part::Kept(_) | Part::Taken(_) => self.heads < MOST_HEADS,
            Part::Guard(_) => self.guards < MOST_GUARDS,
            Part::Body(_) => self.body < MOST_BODY,
        }
    }

    // Whether the variables of a guard or a body fact stand in the heads so far.
    fn binds(self, part: Part, words: &[u32]) -> bool
        requires { words.now ≡ part_words part }
        ensures { Decides result (IsBound self part) }
    {
        match part {
            Part::Kept(_) | Part::Taken(_) => true,
            Part::Guard(_) | Part::Body(_) => is_within(words, self.variables),
        }
    }

    // The numbers after a part, where so many words are used.
    fn with(self, part: Part, used: usize) -> Tally
        requires formed { Formed part }
        requires place { HasPlace self part }
        ensures { result ≡ record (added self part) { used = used } }
    {
        match part {
            Part::Kept(head) | Part::Taken(head) => Tally {
                used,
                variables: bind_head(self.variables, head),
                heads: self.heads + 1,
                ..self
            },
            Part::Guard(_) => Tally {
                used,
                guards: self.guards + 1,
                ..self
            },
            Part::Body(_) => Tally {
                used,
                body: self.body + 1,
                ..self
            },
        }
    }

    // A part more.
    pub fn add(self, memory: &mut [u32], part: Part) -> Result<Tally, Refusal>
        ensures { MatchResult result (λ next. Added self part memory.old memory.new next) (λ why. NotAdded self part memory.old memory.new why) }
    {
        if !self.has_place(part) {
            return Err(Refusal::OutOfRange);
        }
        let Some(code) = part.code() else {
            return Err(Refusal::OutOfRange);
        };
        if !self.binds(part, &code) {
            return Err(Refusal::UnboundVariable);
        }
        let used = add_words(memory, self.used, &code)?;
        Ok(self.with(part, used))
    }
}
