//! The effect of a command: its outcome, and the rows to upsert if it is accepted.

ghost use Rattle.std.specs.Prelude.{◌≡◌, ◌<◌, Some, None, false};
ghost use Rattle.club_core.specs.Answer.{outcome_of};
ghost use Rattle.club_core.specs.State.{is_accepted};
ghost use Rattle.club_changes.specs.internal.Steps.{Puts, no_rows};

use clocks::Moment;
use club_requests::Outcome;
use club_rows::numbers::to_i64;
use std::alloc::Global;
use store_tables::Changes;

/// The effect of a command.
#[derive(Drop)]
pub struct CommandEffect {
    /// The reply to the command.
    pub outcome: Outcome,
    /// The rows to upsert. None if the command was refused or repeated.
    pub changes: Option<Changes>,
}

/// The effect of a refused or repeated command: nothing is upserted.
pub fn without_changes(outcome: Outcome) -> CommandEffect
    ensures outcome { result.outcome ≡ outcome }
    ensures none { result.changes ≡ None }
{
    CommandEffect {
        outcome,
        changes: None,
    }
}

// No rows, only the timestamp of an accepted command.
pub(crate) fn changes_at(alloc: Global, moment: Moment) -> Changes
    ensures { Puts result moment no_rows }
{
    Changes {
        members: Vec::new(alloc),
        events: Vec::new(alloc),
        event_rules: Vec::new(alloc),
        challenges: Vec::new(alloc),
        games: Vec::new(alloc),
        moves: Vec::new(alloc),
        seen: Vec::new(alloc),
        scores: Vec::new(alloc),
        keys: Vec::new(alloc),
        rulings: Vec::new(alloc),
        closings: Vec::new(alloc),
        last: Some(to_i64(moment.seconds())),
    }
}

pub(crate) fn is_accepted(outcome: &Outcome) -> bool
    ensures { result ≡ is_accepted (outcome_of outcome.now) }
{
    match outcome {
        Outcome::Accepted(_) => true,
        Outcome::Repeated(_) => false,
        Outcome::Refused(_) => false,
    }
}
