//! The running games and the challenges of a member, as JSON.

ghost use Rattle.std.specs.Prelude.{◌≡◌, IfOk, count_by, map, string_bytes};
ghost use Rattle.serde_json.specs.View.{view};
ghost use Rattle.club_core.specs.internal.Answer.{events_of, members_of};
ghost use Rattle.club_lists.specs.Shows.{challenge_data, first_of, is_own_refused, is_refused, listed_challenges};
ghost use Rattle.club_lists.specs.Shows.{my_games_data, my_games_json, newest_refused, second_of, started, state_text};
ghost use Rattle.club_lists.specs.internal.SummaryViews.{running_views};
ghost use Rattle.club_lists.specs.Values.{number_or_null};

use crate::game_entry::RunningGame;
use crate::listed_challenges::{more_value, own_listed, received_listed};
use crate::listing::{event_name, member_name};
use crate::member_json::own_game_values;
use clocks::Moment;
use club_core::{Challenge, ChallengeState, Event, Member};
use serde_json::{Value, json};
use std::alloc::{AllocError, Global};

// The most refused challenges that are listed.
const MOST_REFUSED: usize = 20;

// The game that a challenge started, or null.
fn started_value(standing: ChallengeState) -> Value
    ensures { view result ≡ number_or_null (started standing) }
{
    match standing {
        ChallengeState::Accepted { game } => Value::from(game),
        ChallengeState::Open => Value::Null,
        ChallengeState::Withdrawn => Value::Null,
        ChallengeState::Refused => Value::Null,
    }
}

/// The name of a challenge's state.
pub(crate) fn state_text(standing: ChallengeState) -> &'static str
    ensures { result.now ≡ state_text standing }
{
    match standing {
        ChallengeState::Open => "open",
        ChallengeState::Withdrawn => "withdrawn",
        ChallengeState::Refused => "refused",
        ChallengeState::Accepted { game: _ } => "accepted",
    }
}

fn is_refused(standing: ChallengeState) -> bool
    ensures { result ≡ is_refused standing }
{
    match standing {
        ChallengeState::Open => false,
        ChallengeState::Withdrawn => false,
        ChallengeState::Refused => true,
        ChallengeState::Accepted { game: _ } => false,
    }
}

// The name of the member who moves first.
fn first_of<'a>(members: &'a [Member], challenge: &Challenge) -> &'a str
    ensures { result.now ≡ first_of (members_of members.now) challenge.now }
{
    if challenge.first {
        member_name(members, challenge.member)
    } else {
        member_name(members, challenge.other)
    }
}

// The name of the opponent.
fn second_of<'a>(members: &'a [Member], challenge: &Challenge) -> &'a str
    ensures { result.now ≡ second_of (members_of members.now) challenge.now }
{
    if challenge.first {
        member_name(members, challenge.other)
    } else {
        member_name(members, challenge.member)
    }
}

// Whether the challenge is one of the member with this name and was refused.
fn is_own_refused(members: &[Member], name: &str, challenge: &Challenge) -> bool
    ensures { result ≡ is_own_refused (members_of members.now) name.now challenge.now }
{
    if member_name(members, challenge.member) != name {
        return false;
    }
    is_refused(challenge.standing)
}

#[tactic(auto, unfolding(crate::specs::Shows::challenge_data))]
fn challenge_value(
    alloc: Global,
    members: &[Member],
    events: &[Event],
    challenge: &Challenge,
) -> Result<Value, AllocError>
    ensures { IfOk result (λ value. view value ≡
        challenge_data (members_of members.now) (events_of events.now) challenge.now) }
{
    json!(in alloc; {
        "event": event_name(events, challenge.event),
        "first": first_of(members, challenge),
        "from": member_name(members, challenge.member),
        "game": started_value(challenge.standing),
        "number": challenge.number,
        "second": second_of(members, challenge),
        "state": state_text(challenge.standing),
        "to": member_name(members, challenge.other)
    })
}

/// The objects of challenges.
pub(crate) fn challenge_values(
    alloc: Global,
    members: &[Member],
    events: &[Event],
    challenges: &[Challenge],
) -> Result<Vec<Value>, AllocError>
    ensures { IfOk result (λ values. map view values.items ≡
        map (challenge_data (members_of members.now) (events_of events.now)) challenges.now) }
{
    let mut values = Vec::new(alloc);
    for challenge in challenges {
        values.push(challenge_value(alloc, members, events, challenge)?)?;
    }
    Ok(values)
}

// The objects of the challenges that are listed for the member with this name.
fn listed_values(
    alloc: Global,
    members: &[Member],
    events: &[Event],
    name: &str,
    challenges: &[Challenge],
) -> Result<Vec<Value>, AllocError>
    ensures { IfOk result (λ values. map view values.items ≡
        listed_challenges (members_of members.now) (events_of events.now) name.now challenges.now) }
{
    let mut listed = own_listed(alloc, members, name, challenges)?;
    let received = received_listed(alloc, members, name, challenges)?;
    listed.extend_from_slice(&received)?;
    challenge_values(alloc, members, events, &listed)
}

// The number of refused challenges of the member with this name.
fn count_refused(members: &[Member], name: &str, challenges: &[Challenge]) -> usize
    ensures { result ≡ count_by (is_own_refused (members_of members.now) name.now) challenges.now }
{
    challenges
        .iter()
        .filter(|challenge| is_own_refused(members, name, challenge))
        .count()
}

// The newest refused challenges of the member with this name.
fn newest_refused(
    alloc: Global,
    members: &[Member],
    events: &[Event],
    name: &str,
    challenges: &[Challenge],
) -> Result<Vec<Value>, AllocError>
    ensures { IfOk result (λ values. map view values.items ≡
        newest_refused (members_of members.now) (events_of events.now) name.now challenges.now) }
{
    let mut older = count_refused(members, name, challenges).saturating_sub(MOST_REFUSED);
    let mut values = Vec::new(alloc);
    for challenge in challenges {
        if !is_own_refused(members, name, challenge) {
            continue;
        }
        if older > 0 {
            older -= 1;
            continue;
        }
        values.push(challenge_value(alloc, members, events, challenge)?)?;
    }
    values.reverse();
    Ok(values)
}

/// The challenges by and to a member, and the running games of the member. Challenges of others change no text.
#[derive(Drop)]
pub struct MemberGames {
    pub challenges: Vec<Challenge>,
    pub running: Vec<RunningGame>,
}

#[tactic(auto, unfolding(crate::specs::Shows::my_games_data))]
fn my_games_value(
    alloc: Global,
    members: &[Member],
    events: &[Event],
    name: &str,
    moment: Moment,
    own: &MemberGames,
) -> Result<Value, AllocError>
    ensures { IfOk result (λ value. view value ≡ my_games_data (members_of members.now) (events_of events.now)
        name.now moment own.now.challenges.items (running_views own.now.running.items)) }
{
    json!(in alloc; {
        "challenges": listed_values(alloc, members, events, name, &own.challenges)?,
        "games": own_game_values(alloc, members, events, &own.running)?,
        "member": name,
        "moment": moment.seconds(),
        "more": more_value(alloc, members, name, &own.challenges)?,
        "refused": newest_refused(alloc, members, events, name, &own.challenges)?
    })
}

/// A JSON object: the running games and challenges of the member with this name, and the timestamp. It lists the
/// newest 100 challenges that the member made, at most 100 received (the oldest ten of each challenger), and the newest
/// 20 that were refused. `more` counts the others that were made or received.
///
/// # Errors
///
/// `AllocError` if out of memory.
#[tactic(auto, using(crate::proofs::FloatLemmas::my_games_float))]
pub fn my_games_json(
    alloc: Global,
    members: &[Member],
    events: &[Event],
    name: &str,
    moment: Moment,
    own: &MemberGames,
) -> Result<String, AllocError>
    ensures { IfOk result (λ text. string_bytes text ≡ my_games_json (members_of members.now) (events_of events.now)
        name.now moment own.now.challenges.items (running_views own.now.running.items)) }
{
    let value = my_games_value(alloc, members, events, name, moment, own)?;
    value.to_string(alloc)
}
