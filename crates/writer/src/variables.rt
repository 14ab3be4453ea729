ghost use Rattle.std.specs.Prelude.{◌≡◌, Decides, length};
ghost use Rattle.grammar.specs.Writing.{FormedOperand, FormedHead};
ghost use Rattle.writer.specs.Variables.{free_of, Within, bind_operand, bind_head};

use grammar::{Head, LAST_VAR, Operand};
use words::{Kind, Word};

// Whether a word is a VAR word whose variable is not among these.
fn is_free(word: u32, variables: u8) -> bool
    ensures { result ≡ free_of variables word }
{
    let word = Word::from(word);
    word.is(Kind::Var)
        && (word.payload > u32::from(LAST_VAR) || (variables >> word.payload) % 2 == 0)
}

// Whether every variable in these words is among these.
pub(crate) fn is_within(words: &[u32], variables: u8) -> bool
    ensures { Decides result (Within variables words.now) }
{
    words.iter().all(|word| !is_free(*word, variables))
}

fn bind_operand(variables: u8, operand: Operand) -> u8
    requires { FormedOperand operand }
    ensures { result ≡ bind_operand variables operand }
{
    match operand {
        Operand::Var(v) => variables | 1 << v,
        Operand::Const(_) => variables,
    }
}

// The variables of one head more.
pub(crate) fn bind_head(variables: u8, head: Head) -> u8
    requires { FormedHead head }
    ensures { result ≡ bind_head variables head }
{
    let mut bound = variables;
    for operand in head.args {
        bound = bind_operand(bound, operand);
    }
    bound
}
