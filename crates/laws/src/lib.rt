// What is proved of the lane machine, over every run and for every type of facts and of rules. The functions do nothing:
// each contract is a theorem, stated in specs/Law.antt, and the crate is proved only if it holds.
#![tactic(auto)]

ghost use Rattle.std.specs.Prelude.{ℕ};
ghost use Rattle.facts.specs.Meanings.{Meaning};
ghost use Rattle.laws.specs.Rules.{WellFormed};
ghost use Rattle.laws.specs.Law.{Law, Promises, Told, LabelsTell, Pinned, Total, Counted, Ordered};
ghost use Rattle.laws.specs.Worked.{keeping, raising, reporting, Widths, Removal, PartnerGone, OwnGone, Rest, Refusals, NoNumber, Raise, GoneFirst};

// Replay, rest and count hold of every run of a new machine.
pub fn law_holds<F, R>()
    ensures any { Law F R }
    ensures meanings { Law Meaning ℕ }
{}

// A step after a run makes the run one longer, and the law holds of the longer one.
pub fn steps_keep_the_law<F, R>()
    ensures { Promises F R }
{}

// Calls and answers tell which rewrites a run made.
pub fn runs_tell_their_rewrites<F, R>()
    ensures once { Told F R }
    ensures labels { LabelsTell F R }
{}

// A call has one outcome, but for the place and the fact that a take chooses.
pub fn calls_have_one_outcome<F, R>()
    ensures { Pinned F R }
{}

// After any run each call has an outcome.
pub fn calls_have_an_outcome<F, R>()
    ensures { Total F R }
{}

// A fact has W candidates, and each stands at its index.
pub fn candidates_are_counted<F, R>()
    ensures width { Counted F R }
    ensures order { Ordered F R }
{}

// The worked runs are runs, with the answers that they show, and their tables are well formed.
pub fn worked_runs()
    ensures keeps { WellFormed keeping }
    ensures raises { WellFormed raising }
    ensures reports { WellFormed reporting }
    ensures widths { Widths }
    ensures removal { Removal }
    ensures partner { PartnerGone }
    ensures own { OwnGone }
    ensures rest { Rest }
    ensures refusals { Refusals }
    ensures none_left { NoNumber }
    ensures body { Raise }
    ensures order { GoneFirst }
{}
