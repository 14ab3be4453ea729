// Loaded rule tables, of any value kind's ends, under the law over runs: each contract is a theorem.
#![tactic(auto)]

ghost use Rattle.std.specs.Prelude.{[], ◌∷◌};
ghost use Rattle.grammar.specs.Validity.{Valid};
ghost use Rattle.tables.specs.Loaded.{TablesServe, TablesObey};
ghost use Rattle.tables.specs.Sample.{rule_7, Written, Widths, Run};

// A valid table has what the law asks of rules.
pub fn tables_serve()
    ensures { TablesServe }
{}

// Replay, rest and count hold of every run of a new machine over a valid table.
pub fn tables_obey()
    ensures { TablesObey }
{}

// The sample table is valid, has its words and its W, and its run is a run with the answers that it shows.
pub fn sample_runs()
    ensures valid { Valid (rule_7 ∷ []) }
    ensures words { Written }
    ensures widths { Widths }
    ensures run { Run }
{}
