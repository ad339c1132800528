//! Games and events as members see them, as JSON.

ghost use Rattle.std.specs.Prelude.{◌≡◌, ◌≤◌, None, Some, IfOk, IfSome, length, map, string_bytes};
ghost use Rattle.std.specs.Option.{option_map};
ghost use Rattle.serde_json.specs.View.{view};
ghost use Rattle.club_core.specs.internal.Answer.{event_of, events_of, member_of, members_of};
ghost use Rattle.club_core.specs.Members.{find_id};
ghost use Rattle.club_core.specs.State.{has_member_key};
ghost use Rattle.club_requests.specs.Limits.{most_members};
ghost use Rattle.club_lists.specs.GameSummary.{end_of, result_of};
ghost use Rattle.club_lists.specs.Listing.{has_asked};
ghost use Rattle.club_lists.specs.Shows.{event_data, event_game_data, event_games_data, event_games_text};
ghost use Rattle.club_lists.specs.Shows.{games_of_event};
ghost use Rattle.club_lists.specs.Shows.{challenge_choices, challenge_choices_json, is_other, other_names};
ghost use Rattle.club_lists.specs.Shows.{is_of_event, is_own, member_name_by_key, offerer, own_game_data, own_game_ids};
ghost use Rattle.club_lists.specs.internal.SummaryViews.{running_view, running_views, summaries_of, summary_of};
ghost use Rattle.club_lists.specs.Rounds.{round_in};
ghost use Rattle.club_lists.specs.Values.{number_or_null, text_or_null};

use crate::clock::{deadline_value, running_deadline, running_turn};
use crate::game_entry::{GameEntry, RunningGame};
use crate::lines::{game_name, kind_name, turn_name};
use crate::listing::{event_name, member_name};
use crate::rounds::round_in;
use crate::values::text_or_null;
use club_core::{Event, Member};
use serde_json::{Value, json};
use squares::Side;
use std::alloc::{AllocError, Global};

/// The name of the member with this key.
pub fn member_name_by_key<'a>(members: &'a [Member], key: &str) -> Option<&'a str>
    ensures some { IfSome result (λ name. Some name.now ≡ member_name_by_key key.now (members_of members.now)) }
    ensures none { result ≡ None → member_name_by_key key.now (members_of members.now) ≡ None }
{
    for member in members {
        if member.present_key() == key {
            return Some(member.name.as_str());
        }
    }
    None
}

/// The id of the member with this key.
pub fn member_id_by_key(members: &[Member], key: &str) -> Option<u32>
    requires { length members.now ≤ most_members }
    ensures { result ≡ find_id (has_member_key key.now) (members_of members.now) }
{
    match members.iter().position(|m| m.present_key() == key) {
        Some(before) => Some(before as u32 + 1),
        None => None,
    }
}

/// The name of the end of a game, or null.
pub(crate) fn end_value(alloc: Global, game: &GameEntry) -> Result<Value, AllocError>
    ensures { IfOk result (λ value. view value ≡ text_or_null (end_of (summary_of game.now))) }
{
    match &game.over {
        Some(over) => Value::try_from_str(alloc, over.end.as_str()),
        None => Ok(Value::Null),
    }
}

/// The result of a game, or null if it is running or void.
pub(crate) fn result_value(alloc: Global, game: &GameEntry) -> Result<Value, AllocError>
    ensures { IfOk result (λ value. view value ≡ text_or_null (result_of (summary_of game.now))) }
{
    match &game.over {
        Some(over) => text_or_null(alloc, &over.result),
        None => Ok(Value::Null),
    }
}

// The round of the game with this key, or null.
fn round_value(key: &Option<String>) -> Value
    ensures { view result ≡ number_or_null (round_in (option_map (λ key. string_bytes key) key.now)) }
{
    match round_in(key) {
        Some(round) => Value::from(round),
        None => Value::Null,
    }
}

// A game in the list of an event.
#[tactic(auto, unfolding(crate::specs::Shows::event_game_data))]
fn event_game_value(
    alloc: Global,
    members: &[Member],
    game: &GameEntry,
) -> Result<Value, AllocError>
    ensures { IfOk result (λ value. view value ≡
        event_game_data (members_of members.now) (summary_of game.now)) }
{
    json!(in alloc; {
        "deadline": running_deadline(game),
        "end": end_value(alloc, game)?,
        "first": member_name(members, game.first),
        "game": game.id,
        "ply": game.plies,
        "result": result_value(alloc, game)?,
        "round": round_value(&game.key),
        "second": member_name(members, game.second),
        "turn": running_turn(alloc, members, game)?
    })
}

/// Whether the game belongs to the event with this name.
pub(crate) fn is_of_event(events: &[Event], name: &str, game: &GameEntry) -> bool
    ensures { result ≡ is_of_event (events_of events.now) name.now (summary_of game.now) }
{
    event_name(events, game.event) == name
}

fn games_of_event(
    alloc: Global,
    members: &[Member],
    events: &[Event],
    name: &str,
    games: &[GameEntry],
) -> Result<Vec<Value>, AllocError>
    ensures { IfOk result (λ values. map view values.items ≡
        games_of_event (members_of members.now) (events_of events.now) name.now (summaries_of games.now)) }
{
    let mut values = Vec::new(alloc);
    for game in games {
        if !is_of_event(events, name, game) {
            continue;
        }
        values.push(event_game_value(alloc, members, game)?)?;
    }
    Ok(values)
}

#[tactic(auto, unfolding(crate::specs::Shows::event_games_data))]
fn event_games_value(
    alloc: Global,
    members: &[Member],
    events: &[Event],
    name: &str,
    games: &[GameEntry],
) -> Result<Value, AllocError>
    ensures { IfOk result (λ value. view value ≡
        event_games_data (members_of members.now) (events_of events.now) name.now (summaries_of games.now)) }
{
    json!(in alloc; {"games": games_of_event(alloc, members, events, name, games)?})
}

/// The games of the event with this name, as a JSON object.
///
/// # Errors
///
/// `AllocError` if out of memory.
#[tactic(auto, using(crate::proofs::FloatLemmas::event_games_float))]
pub fn event_games_text(
    alloc: Global,
    members: &[Member],
    events: &[Event],
    name: &str,
    games: &[GameEntry],
) -> Result<String, AllocError>
    ensures { IfOk result (λ text. string_bytes text ≡
        event_games_text (members_of members.now) (events_of events.now) name.now (summaries_of games.now)) }
{
    let value = event_games_value(alloc, members, events, name, games)?;
    value.to_string(alloc)
}

#[tactic(auto, unfolding(crate::specs::Shows::event_data))]
fn event_value(alloc: Global, event: &Event) -> Result<Value, AllocError>
    ensures { IfOk result (λ value. view value ≡ event_data (event_of event.now)) }
{
    json!(in alloc; {
        "budget": event.budget,
        "event": event.name.as_str(),
        "game": game_name(event.game),
        "increment": event.increment,
        "open": event.closed.is_none()
    })
}

fn event_values(alloc: Global, events: &[Event]) -> Result<Vec<Value>, AllocError>
    ensures { IfOk result (λ values. map view values.items ≡ map event_data (events_of events.now)) }
{
    let mut values = Vec::new(alloc);
    for event in events {
        values.push(event_value(alloc, event)?)?;
    }
    Ok(values)
}

// Whether a member has another key.
fn is_other(key: &str, member: &Member) -> bool
    ensures { result ≡ is_other key.now (member_of member.now) }
{
    member.present_key() != key
}

// The names of the members with another key.
fn other_names(alloc: Global, key: &str, members: &[Member]) -> Result<Vec<Value>, AllocError>
    ensures { IfOk result (λ values. map view values.items ≡ other_names key.now (members_of members.now)) }
{
    let mut values = Vec::new(alloc);
    for member in members {
        if !is_other(key, member) {
            continue;
        }
        values.push(Value::try_from_str(alloc, member.name.as_str())?)?;
    }
    Ok(values)
}

#[tactic(auto, unfolding(crate::specs::Shows::challenge_choices))]
fn challenge_choices(
    alloc: Global,
    key: &str,
    members: &[Member],
    events: &[Event],
) -> Result<Value, AllocError>
    ensures { IfOk result (λ value. view value ≡
        challenge_choices key.now (members_of members.now) (events_of events.now)) }
{
    json!(in alloc; {"events": event_values(alloc, events)?, "members": other_names(alloc, key, members)?})
}

/// All events, and all members except the one with this key, as a JSON object.
///
/// # Errors
///
/// `AllocError` if out of memory.
#[tactic(auto, using(crate::proofs::FloatLemmas::choices_float))]
pub fn challenge_choices_json(
    alloc: Global,
    key: &str,
    members: &[Member],
    events: &[Event],
) -> Result<String, AllocError>
    ensures { IfOk result (λ text. string_bytes text ≡
        challenge_choices_json key.now (members_of members.now) (events_of events.now)) }
{
    let value = challenge_choices(alloc, key, members, events)?;
    value.to_string(alloc)
}

// The name of the player who offers a draw, or null.
fn offer_value(alloc: Global, members: &[Member], game: &GameEntry) -> Result<Value, AllocError>
    ensures { IfOk result (λ value. view value ≡
        text_or_null (offerer (members_of members.now) (summary_of game.now))) }
{
    match game.offer {
        Some(Side::First) => Value::try_from_str(alloc, member_name(members, game.first)),
        Some(Side::Second) => Value::try_from_str(alloc, member_name(members, game.second)),
        None => Ok(Value::Null),
    }
}

// A running game of a member.
#[tactic(auto, unfolding(crate::specs::Shows::own_game_data))]
fn own_game_value(
    alloc: Global,
    members: &[Member],
    events: &[Event],
    running: &RunningGame,
) -> Result<Value, AllocError>
    ensures { IfOk result (λ value. view value ≡
        own_game_data (members_of members.now) (events_of events.now) (running_view running.now)) }
{
    let game = &running.entry;
    json!(in alloc; {
        "deadline": deadline_value(game),
        "event": event_name(events, game.event),
        "first": member_name(members, game.first),
        "game": game.id,
        "kind": kind_name(events, game),
        "last": text_or_null(alloc, &running.last)?,
        "offer": offer_value(alloc, members, game)?,
        "ply": game.plies,
        "position": running.position.as_str(),
        "second": member_name(members, game.second),
        "turn": turn_name(members, game)
    })
}

/// Whether the member with this name is a player of the game.
pub(crate) fn is_player(members: &[Member], name: &str, game: &GameEntry) -> bool
    ensures { result ≡ has_asked (members_of members.now) (Some name.now) (summary_of game.now) }
{
    if member_name(members, game.first) == name {
        return true;
    }
    member_name(members, game.second) == name
}

// Whether the game is running and the member with this name plays in it.
fn is_own(members: &[Member], name: &str, game: &GameEntry) -> bool
    ensures { result ≡ is_own (members_of members.now) name.now (summary_of game.now) }
{
    if game.is_over() {
        return false;
    }
    is_player(members, name, game)
}

/// The ids of the running games of the member with this name, in order.
///
/// # Errors
///
/// `AllocError` if out of memory.
pub fn own_game_ids(
    alloc: Global,
    members: &[Member],
    name: &str,
    games: &[GameEntry],
) -> Result<Vec<u32>, AllocError>
    ensures { IfOk result (λ ids. ids.items ≡
        own_game_ids (members_of members.now) name.now (summaries_of games.now)) }
{
    let mut ids = Vec::new(alloc);
    for game in games {
        if !is_own(members, name, game) {
            continue;
        }
        ids.push(game.id)?;
    }
    Ok(ids)
}

/// The objects of running games.
pub(crate) fn own_game_values(
    alloc: Global,
    members: &[Member],
    events: &[Event],
    games: &[RunningGame],
) -> Result<Vec<Value>, AllocError>
    ensures { IfOk result (λ values. map view values.items ≡
        map (own_game_data (members_of members.now) (events_of events.now)) (running_views games.now)) }
{
    let mut values = Vec::new(alloc);
    for game in games {
        values.push(own_game_value(alloc, members, events, game)?)?;
    }
    Ok(values)
}
