ghost use Rattle.std.specs.Prelude.{◌≡◌, ◌<◌, [], length};
ghost use Rattle.grammar.specs.Parts.{Parts};
ghost use Rattle.writer.specs.Stages.{IsBegun, IsTaking, IsGuarding, IsFilling};

// How far an open rule has come.
pub trait Stage {
    // What its parts so far are like.
    ghost reached: { Parts → Type 0 };
}

// No guard and no body fact is in the rule yet.
pub trait MayTake: Stage {
    ghost no_tail: { (r : Parts) → Self.reached r → (r.guards ≡ []) × (r.body ≡ []) };
}

// A head is taken.
pub trait MayClose: Stage {
    ghost takes: { (r : Parts) → Self.reached r → 0 < length r.taken };
}

// A head is taken, and no body fact is in the rule yet.
pub trait MayGuard: MayClose {
    ghost no_body: { (r : Parts) → Self.reached r → r.body ≡ [] };
}

// No taken head yet.
pub struct Start;

// A taken head, and no guard or body fact.
pub struct Heads;

// A guard, and no body fact.
pub struct Guards;

// A body fact.
pub struct Body;

impl Stage for Start {
    ghost reached = { IsBegun };
}

impl Stage for Heads {
    ghost reached = { IsTaking };
}

impl Stage for Guards {
    ghost reached = { IsGuarding };
}

impl Stage for Body {
    ghost reached = { IsFilling };
}

impl MayTake for Start {
    ghost no_tail = { λ r s. (s.1, s.2) };
}

impl MayTake for Heads {
    ghost no_tail = { λ r s. (s.1, s.2) };
}

impl MayClose for Heads {
    ghost takes = { λ r s. s.0 };
}

impl MayClose for Guards {
    ghost takes = { λ r s. s.0 };
}

impl MayClose for Body {
    ghost takes = { λ r s. s };
}

impl MayGuard for Heads {
    ghost no_body = { λ r s. s.2 };
}

impl MayGuard for Guards {
    ghost no_body = { λ r s. s.1 };
}
