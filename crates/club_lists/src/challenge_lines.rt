//! The challenges of a club as lines of text.

ghost use Rattle.std.specs.Prelude.{◌≡◌, IfOk, string_bytes};
ghost use Rattle.club_core.specs.internal.Answer.{events_of, members_of};
ghost use Rattle.club_lists.specs.ChallengeLines.{challenge_line, challenge_lines, challenge_tail, challenger_side};
ghost use Rattle.club_lists.specs.ChallengeLines.{started_text};
ghost use Rattle.club_lists.specs.Shows.{started};

use crate::listing::{event_name, member_name};
use crate::mine::state_text;
use club_core::{Challenge, ChallengeState, Event, Member};
use std::alloc::{AllocError, Global};

// The side that the challenger plays.
fn challenger_side(is_first: bool) -> &'static str
    ensures { result.now ≡ challenger_side is_first }
{
    match is_first {
        true => "first",
        false => "second",
    }
}

// The id of the game that a challenge started, or `=`.
fn started_text(alloc: Global, standing: ChallengeState) -> Result<String, AllocError>
    ensures { IfOk result (λ text. string_bytes text ≡ started_text (started standing)) }
{
    match standing {
        ChallengeState::Accepted { game } => format!(in alloc; "{game}"),
        ChallengeState::Open => String::from_str(alloc, "="),
        ChallengeState::Withdrawn => String::from_str(alloc, "="),
        ChallengeState::Refused => String::from_str(alloc, "="),
    }
}

// The end of a challenge's line: the challenger's side, the state and the game.
fn challenge_tail(alloc: Global, challenge: &Challenge) -> Result<String, AllocError>
    ensures { IfOk result (λ tail. string_bytes tail ≡ challenge_tail challenge.now) }
{
    let side = challenger_side(challenge.first);
    let state = state_text(challenge.standing);
    let game = started_text(alloc, challenge.standing)?;
    format!(in alloc; "{side} {state} {game}\n")
}

fn challenge_line(
    alloc: Global,
    members: &[Member],
    events: &[Event],
    challenge: &Challenge,
) -> Result<String, AllocError>
    ensures { IfOk result (λ line. string_bytes line ≡
        challenge_line (members_of members.now) (events_of events.now) challenge.now) }
{
    let from = member_name(members, challenge.member);
    let number = challenge.number;
    let event = event_name(events, challenge.event);
    let to = member_name(members, challenge.other);
    let tail = challenge_tail(alloc, challenge)?;
    format!(in alloc; "challenge {from} {number} {event} {to} {tail}")
}

/// These challenges, one per line.
///
/// # Errors
///
/// `AllocError` if out of memory.
pub fn challenges_text(
    alloc: Global,
    members: &[Member],
    events: &[Event],
    challenges: &[Challenge],
) -> Result<String, AllocError>
    ensures { IfOk result (λ text. string_bytes text ≡
        challenge_lines (members_of members.now) (events_of events.now) challenges.now) }
{
    let mut text = String::new(alloc);
    for challenge in challenges {
        let line = challenge_line(alloc, members, events, challenge)?;
        text.push_str(line.as_str())?;
    }
    Ok(text)
}
