ghost use Rattle.std.specs.Prelude.{◌≡◌, ◌≤◌, length, sum_by};
ghost use Rattle.grammar.specs.Parts.{parts};
ghost use Rattle.grammar.specs.Sizes.{heads_size, rule_size};

use crate::part::Written;
use grammar::Rule;

// How many words a few parts are written as.
fn total_size<P: Written>(items: &[P]) -> usize
    requires { length items.now ≤ 4 }
    ensures value { result ≡ sum_by P.size items.now }
    ensures bound { result ≤ 40 }
{
    // As a chain the sum proves, but not its bound.
    let mut size = 0;
    for item in items {
        size += item.size();
    }
    size
}

// How many words the RULE word and the heads of a rule are.
pub fn heads_size(rule: &Rule) -> usize
    ensures value { result ≡ heads_size (parts rule.now) }
    ensures bound { result ≤ 100 }
{
    1 + total_size(&rule.kept) + total_size(&rule.taken)
}

// How many words a rule is written as.
pub fn rule_size(rule: &Rule) -> usize
    ensures value { result ≡ rule_size (parts rule.now) }
    ensures bound { result ≤ 200 }
{
    heads_size(rule) + total_size(&rule.guards) + total_size(&rule.body)
}
