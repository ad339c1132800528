//! Rows that a command about a challenge changes.

ghost use Rattle.std.specs.Prelude.{◌≡◌, ◌<◌, ℕ, Bool, List, [], ◌∷◌, length, Some, None, IfOk, IsErrOf};
ghost use Rattle.sqlite.specs.Order.{Row};
ghost use Rattle.club_core.specs.internal.Answer.{events_of, challenge_outcome_of};
ghost use Rattle.club_core.specs.Challenges.{pairing_for};
ghost use Rattle.club_core.specs.LegalState.{Each, IsLegalEvent};
ghost use Rattle.club_requests.specs.Outcome.{map_outcome};
ghost use Rattle.club_core.specs.State.{place, with_challenge, with_answer};
ghost use Rattle.club_rows.specs.Club.{ClubState, IsClub};
ghost use Rattle.club_rows.specs.Tables.{challenge_row};
ghost use Rattle.club_changes.specs.internal.Challenged.{PutsBegun, AnswersTo, HasNoEvent};
ghost use Rattle.club_changes.specs.internal.Steps.{Puts, IsDecided, no_rows};
ghost use Rattle.club_changes.specs.internal.Whole.{IsWhole};

use crate::decided::{CommandEffect, changes_at, without_changes};
use crate::fault::ChangeFault;
use crate::seats::seated_rows;
use clocks::Moment;
use club_core::{Challenge, ChallengeDecision, ChallengeState, Event, KeyedGame};
use club_requests::Outcome;
use club_rows::challenge_row;
use club_rules::Memory;
use std::alloc::Global;
use store_tables::Changes;

// Adds the row of the challenge to the rows to upsert.
fn with_challenge(changes: Changes, challenge: Challenge) -> Result<Changes, Memory>
    ensures { IfOk result (λ new. (moment : ℕ) (games seen : List Row) →
        Puts changes moment (record no_rows { games = games; seen = seen }) →
        Puts new moment (record no_rows { challenges = challenge_row challenge ∷ []; games = games; seen = seen })) }
{
    let mut changes = changes;
    changes.challenges.push(challenge_row(&challenge))?;
    Ok(changes)
}

/// Returns the effect of opening or withdrawing a challenge: its new row.
///
/// # Errors
///
/// `Memory` if out of memory.
pub fn put_challenge(
    alloc: Global,
    decision: ChallengeDecision,
    moment: Moment,
) -> Result<CommandEffect, Memory>
    ensures acts { IfOk result IsWhole }
    ensures step { IfOk result (λ d. (s : ClubState) → IsClub s →
        IsDecided s (map_outcome (with_challenge s moment) (challenge_outcome_of decision)) d) }
{
    match decision {
        ChallengeDecision::Accepted { challenge, answer } => {
            let changes = with_challenge(changes_at(alloc, moment), challenge)?;
            Ok(CommandEffect {
                outcome: Outcome::Accepted(answer),
                changes: Some(changes),
            })
        }
        ChallengeDecision::Repeated(answer) => Ok(without_changes(Outcome::Repeated(answer))),
        ChallengeDecision::Refused(refusal) => Ok(without_changes(Outcome::Refused(refusal))),
    }
}

// The rows of the game that an accepted challenge starts; none for other challenges.
fn begun_rows(
    alloc: Global,
    events: &[Event],
    challenge: Challenge,
    moment: Moment,
) -> Result<Changes, ChangeFault>
    ensures puts { IfOk result (λ changes. Each IsLegalEvent (events_of events.now) →
        PutsBegun (events_of events.now) moment challenge [] changes) }
    ensures unfit { IsErrOf result ChangeFault.InconsistentRows →
        place (events_of events.now) (pairing_for challenge).event ≡ None }
{
    match challenge.standing {
        ChallengeState::Accepted { game } => {
            let pairing = challenge.pairing();
            seated_rows(alloc, events, KeyedGame { game, pairing }, None, moment)
        }
        _ => Ok(changes_at(alloc, moment)),
    }
}

// The row of the challenge, and the rows of the game that it starts if it is accepted.
fn answered_rows(
    alloc: Global,
    events: &[Event],
    challenge: Challenge,
    moment: Moment,
) -> Result<Changes, ChangeFault>
    ensures puts { IfOk result (λ changes. Each IsLegalEvent (events_of events.now) →
        PutsBegun (events_of events.now) moment challenge (challenge_row challenge ∷ []) changes) }
    ensures unfit { IsErrOf result ChangeFault.InconsistentRows →
        place (events_of events.now) (pairing_for challenge).event ≡ None }
{
    let changes = begun_rows(alloc, events, challenge, moment)?;
    Ok(with_challenge(changes, challenge)?)
}

/// Returns the effect of answering a challenge: its new row, and the rows of the game that it starts if it is accepted.
///
/// # Errors
///
/// - `InconsistentRows` if an accepted challenge's event does not exist.
/// - `Memory` if out of memory.
pub fn put_answered(
    alloc: Global,
    events: &[Event],
    decision: ChallengeDecision,
    moment: Moment,
) -> Result<CommandEffect, ChangeFault>
    ensures acts { IfOk result IsWhole }
    ensures step { IfOk result (λ d. (s : ClubState) (accept : Bool) → IsClub s → events_of events.now ≡ s.events →
        AnswersTo (length s.games) accept (challenge_outcome_of decision) →
        IsDecided s (map_outcome (with_answer s moment accept) (challenge_outcome_of decision)) d) }
    // Every challenge of a legal club has an event.
    ensures unfit { IsErrOf result ChangeFault.InconsistentRows → HasNoEvent (events_of events.now) decision }
{
    match decision {
        ChallengeDecision::Accepted { challenge, answer } => {
            let changes = answered_rows(alloc, events, challenge, moment)?;
            Ok(CommandEffect {
                outcome: Outcome::Accepted(answer),
                changes: Some(changes),
            })
        }
        ChallengeDecision::Repeated(answer) => Ok(without_changes(Outcome::Repeated(answer))),
        ChallengeDecision::Refused(refusal) => Ok(without_changes(Outcome::Refused(refusal))),
    }
}
