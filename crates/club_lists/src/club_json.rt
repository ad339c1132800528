//! The members, events, games and challenges of a club, as JSON.

ghost use Rattle.std.specs.Prelude.{◌≡◌, IfOk, map, string_bytes};
ghost use Rattle.serde_json.specs.Data.{string};
ghost use Rattle.serde_json.specs.View.{view};
ghost use Rattle.club_core.specs.internal.Answer.{event_of, events_of, members_of};
ghost use Rattle.club_lists.specs.ClubJson.{challenges_data, challenges_json, event_entries_from, event_entry_data};
ghost use Rattle.club_lists.specs.ClubJson.{events_data, events_json, game_entry_data, games_data, games_json};
ghost use Rattle.club_lists.specs.ClubJson.{members_data, members_json};
ghost use Rattle.club_lists.specs.Listing.{listed_games};
ghost use Rattle.club_lists.specs.internal.SummaryViews.{summaries_of, summary_of};

use crate::clock::{running_deadline, running_turn};
use crate::game_entry::GameEntry;
use crate::lines::{game_name, games_of, kind_name, running_of};
use crate::listing::{event_name, is_listed, member_name};
use crate::member_json::{end_value, result_value};
use crate::mine::challenge_values;
use crate::values::text_or_null;
use clocks::Moment;
use club_core::{Challenge, Event, Member};
use club_requests::Listing;
use serde_json::{Value, json};
use std::alloc::{AllocError, Global};

// The names of the members, by id.
fn member_names(alloc: Global, members: &[Member]) -> Result<Vec<Value>, AllocError>
    ensures { IfOk result (λ values. map view values.items ≡
        map string (map (λ m. m.name) (members_of members.now))) }
{
    let mut values = Vec::new(alloc);
    for member in members {
        values.push(Value::try_from_str(alloc, member.name.as_str())?)?;
    }
    Ok(values)
}

#[tactic(auto, unfolding(crate::specs::ClubJson::members_data))]
fn members_value(alloc: Global, members: &[Member]) -> Result<Value, AllocError>
    ensures { IfOk result (λ value. view value ≡ members_data (members_of members.now)) }
{
    json!(in alloc; {"members": member_names(alloc, members)?})
}

/// The names of the members, by id, as a JSON object.
///
/// # Errors
///
/// `AllocError` if out of memory.
#[tactic(auto, using(crate::proofs::FloatLemmas::members_float))]
pub fn members_json(alloc: Global, members: &[Member]) -> Result<String, AllocError>
    ensures { IfOk result (λ text. string_bytes text ≡ members_json (members_of members.now)) }
{
    let value = members_value(alloc, members)?;
    value.to_string(alloc)
}

// An event with its id and the numbers of its games.
#[tactic(auto, unfolding(crate::specs::ClubJson::event_entry_data))]
fn event_entry_value(
    alloc: Global,
    games: &[GameEntry],
    id: usize,
    event: &Event,
) -> Result<Value, AllocError>
    ensures { IfOk result (λ value. view value ≡
        event_entry_data (summaries_of games.now) id (event_of event.now)) }
{
    json!(in alloc; {
        "budget": event.budget,
        "event": event.name.as_str(),
        "game": game_name(event.game),
        "games": games_of(games, id),
        "id": id,
        "increment": event.increment,
        "open": event.closed.is_none(),
        "running": running_of(games, id)
    })
}

// The events, with ids from 1.
fn event_entries(
    alloc: Global,
    events: &[Event],
    games: &[GameEntry],
) -> Result<Vec<Value>, AllocError>
    ensures { IfOk result (λ values. map view values.items ≡
        event_entries_from (summaries_of games.now) 1 (events_of events.now)) }
{
    let mut values = Vec::new(alloc);
    for event in events {
        let id = values.len() + 1;
        values.push(event_entry_value(alloc, games, id, event)?)?;
    }
    Ok(values)
}

#[tactic(auto, unfolding(crate::specs::ClubJson::events_data))]
fn events_value(alloc: Global, events: &[Event], games: &[GameEntry]) -> Result<Value, AllocError>
    ensures { IfOk result (λ value. view value ≡ events_data (summaries_of games.now) (events_of events.now)) }
{
    json!(in alloc; {"events": event_entries(alloc, events, games)?})
}

/// The events, by id, with the numbers of all and of running games and whether they take challenges, as a JSON object.
///
/// # Errors
///
/// `AllocError` if out of memory.
#[tactic(auto, using(crate::proofs::FloatLemmas::events_float))]
pub fn events_json(
    alloc: Global,
    events: &[Event],
    games: &[GameEntry],
) -> Result<String, AllocError>
    ensures { IfOk result (λ text. string_bytes text ≡ events_json (summaries_of games.now) (events_of events.now)) }
{
    let value = events_value(alloc, events, games)?;
    value.to_string(alloc)
}

// A game in the list of the club's games.
#[tactic(auto, unfolding(crate::specs::ClubJson::game_entry_data))]
fn game_entry_value(
    alloc: Global,
    members: &[Member],
    events: &[Event],
    game: &GameEntry,
) -> Result<Value, AllocError>
    ensures { IfOk result (λ value. view value ≡
        game_entry_data (members_of members.now) (events_of events.now) (summary_of game.now)) }
{
    json!(in alloc; {
        "deadline": running_deadline(game),
        "end": end_value(alloc, game)?,
        "event": event_name(events, game.event),
        "first": member_name(members, game.first),
        "game": game.id,
        "key": text_or_null(alloc, &game.key)?,
        "kind": kind_name(events, game),
        "ply": game.plies,
        "result": result_value(alloc, game)?,
        "second": member_name(members, game.second),
        "turn": running_turn(alloc, members, game)?
    })
}

// The games that pass the filter at this timestamp, in their order.
fn listed_values(
    alloc: Global,
    listing: &Listing,
    members: &[Member],
    events: &[Event],
    games: &[GameEntry],
    moment: Moment,
) -> Result<Vec<Value>, AllocError>
    ensures { IfOk result (λ values. map view values.items ≡
        map (game_entry_data (members_of members.now) (events_of events.now))
        (listed_games (members_of members.now) (events_of events.now) listing.now moment (summaries_of games.now))) }
{
    let mut values = Vec::new(alloc);
    for game in games {
        if !is_listed(listing, members, events, game, moment) {
            continue;
        }
        values.push(game_entry_value(alloc, members, events, game)?)?;
    }
    Ok(values)
}

#[tactic(auto, unfolding(crate::specs::ClubJson::games_data))]
fn games_value(
    alloc: Global,
    listing: &Listing,
    members: &[Member],
    events: &[Event],
    games: &[GameEntry],
    moment: Moment,
) -> Result<Value, AllocError>
    ensures { IfOk result (λ value. view value ≡ games_data (members_of members.now) (events_of events.now)
        (listed_games (members_of members.now) (events_of events.now) listing.now moment (summaries_of games.now))) }
{
    json!(in alloc; {"games": listed_values(alloc, listing, members, events, games, moment)?})
}

/// The games that pass the filter at this timestamp, those of `games_text`, as a JSON object.
///
/// # Errors
///
/// `AllocError` if out of memory.
#[tactic(auto, using(crate::proofs::FloatLemmas::games_float))]
pub fn games_json(
    alloc: Global,
    listing: &Listing,
    members: &[Member],
    events: &[Event],
    games: &[GameEntry],
    moment: Moment,
) -> Result<String, AllocError>
    ensures { IfOk result (λ text. string_bytes text ≡ games_json (members_of members.now) (events_of events.now)
        (listed_games (members_of members.now) (events_of events.now) listing.now moment (summaries_of games.now))) }
{
    let value = games_value(alloc, listing, members, events, games, moment)?;
    value.to_string(alloc)
}

#[tactic(auto, unfolding(crate::specs::ClubJson::challenges_data))]
fn challenges_value(
    alloc: Global,
    members: &[Member],
    events: &[Event],
    challenges: &[Challenge],
) -> Result<Value, AllocError>
    ensures { IfOk result (λ value. view value ≡
        challenges_data (members_of members.now) (events_of events.now) challenges.now) }
{
    json!(in alloc; {"challenges": challenge_values(alloc, members, events, challenges)?})
}

/// These challenges, as a JSON object.
///
/// # Errors
///
/// `AllocError` if out of memory.
#[tactic(auto, using(crate::proofs::FloatLemmas::challenges_float))]
pub fn challenges_json(
    alloc: Global,
    members: &[Member],
    events: &[Event],
    challenges: &[Challenge],
) -> Result<String, AllocError>
    ensures { IfOk result (λ text. string_bytes text ≡
        challenges_json (members_of members.now) (events_of events.now) challenges.now) }
{
    let value = challenges_value(alloc, members, events, challenges)?;
    value.to_string(alloc)
}
