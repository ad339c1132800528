//! Properties of the parser, for all bytes. Each is the contract of a function with an empty body.
ghost use Rattle.std.specs.Prelude.{◌≡◌, ℕ, List, ◌++◌};
ghost use Rattle.http_head.specs.Request.{ParseState, unfinished, Sees, asks_head};

/// A prefix that is complete or rejected stays so whatever bytes follow: the division into reads does not matter.
pub fn decided_stays()
    ensures { (bytes more : List ℕ) (seen : ParseState) → Sees bytes seen → (seen ≡ unfinished → ⊥) →
        Sees (bytes ++ more) seen × (asks_head (bytes ++ more) ≡ asks_head bytes) }
{}

/// Parsing is deterministic: the same bytes have one reading.
pub fn one_reading()
    ensures { (bytes : List ℕ) (seen other : ParseState) → Sees bytes seen → Sees bytes other → seen ≡ other }
{}
