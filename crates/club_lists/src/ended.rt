//! The ended games of a member, as JSON.

ghost use Rattle.std.specs.Prelude.{◌≡◌, IfOk, map, string_bytes, count_by};
ghost use Rattle.serde_json.specs.View.{view};
ghost use Rattle.club_core.specs.internal.Answer.{events_of, members_of};
ghost use Rattle.club_lists.specs.Ended.{end_moment, ended_data, ended_games_data, ended_games_json};
ghost use Rattle.club_lists.specs.Ended.{is_own_ended, newest_ended};
ghost use Rattle.club_lists.specs.internal.SummaryViews.{summaries_of, summary_of};
ghost use Rattle.club_lists.specs.Values.{number_or_null};

use crate::game_entry::GameEntry;
use crate::lines::kind_name;
use crate::listing::{event_name, member_name};
use crate::member_json::{end_value, is_player, result_value};
use clocks::Moment;
use club_core::{Event, Member};
use club_requests::{is_outside, is_verdict};
use serde_json::{Value, json};
use std::alloc::{AllocError, Global};

// The most games that are listed.
const MOST_ENDED: usize = 200;

// The timestamp of the last move if it ended the game, otherwise null.
fn end_moment(game: &GameEntry) -> Value
    ensures { view result ≡ number_or_null (end_moment (summary_of game.now)) }
{
    match &game.over {
        Some(over) => {
            let end = over.end.as_str();
            if is_outside(end) {
                return Value::Null;
            }
            if is_verdict(end) {
                return Value::Null;
            }
            Value::from(game.since.seconds())
        }
        None => Value::Null,
    }
}

#[tactic(auto, unfolding(crate::specs::Ended::ended_data))]
fn ended_value(
    alloc: Global,
    members: &[Member],
    events: &[Event],
    game: &GameEntry,
) -> Result<Value, AllocError>
    ensures { IfOk result (λ value. view value ≡
        ended_data (members_of members.now) (events_of events.now) (summary_of game.now)) }
{
    json!(in alloc; {
        "end": end_value(alloc, game)?,
        "ended": end_moment(game),
        "event": event_name(events, game.event),
        "first": member_name(members, game.first),
        "game": game.id,
        "kind": kind_name(events, game),
        "ply": game.plies,
        "result": result_value(alloc, game)?,
        "second": member_name(members, game.second)
    })
}

// Whether the game has ended and the member with this name played in it.
fn is_own_ended(members: &[Member], name: &str, game: &GameEntry) -> bool
    ensures { result ≡ is_own_ended (members_of members.now) name.now (summary_of game.now) }
{
    if !game.is_over() {
        return false;
    }
    is_player(members, name, game)
}

// The number of ended games of the member with this name.
fn count_ended(members: &[Member], name: &str, games: &[GameEntry]) -> usize
    ensures { result ≡ count_by (is_own_ended (members_of members.now) name.now) (summaries_of games.now) }
{
    games
        .iter()
        .filter(|game| is_own_ended(members, name, game))
        .count()
}

// The newest ended games of the member with this name.
fn newest_ended(
    alloc: Global,
    members: &[Member],
    events: &[Event],
    name: &str,
    games: &[GameEntry],
) -> Result<Vec<Value>, AllocError>
    ensures { IfOk result (λ values. map view values.items ≡
        newest_ended (members_of members.now) (events_of events.now) name.now (summaries_of games.now)) }
{
    let mut older = count_ended(members, name, games).saturating_sub(MOST_ENDED);
    let mut values = Vec::new(alloc);
    for game in games {
        if !is_own_ended(members, name, game) {
            continue;
        }
        if older > 0 {
            older -= 1;
            continue;
        }
        values.push(ended_value(alloc, members, events, game)?)?;
    }
    values.reverse();
    Ok(values)
}

#[tactic(auto, unfolding(crate::specs::Ended::ended_games_data))]
fn ended_games_value(
    alloc: Global,
    members: &[Member],
    events: &[Event],
    name: &str,
    moment: Moment,
    games: &[GameEntry],
) -> Result<Value, AllocError>
    ensures { IfOk result (λ value. view value ≡ ended_games_data (members_of members.now) (events_of events.now)
        name.now moment (summaries_of games.now)) }
{
    json!(in alloc; {
        "games": newest_ended(alloc, members, events, name, games)?,
        "member": name,
        "moment": moment.seconds(),
        "more": count_ended(members, name, games).saturating_sub(MOST_ENDED)
    })
}

/// The newest ended games of the member with this name, at most 200, and the number of the others, as a JSON object
/// with the timestamp.
///
/// # Errors
///
/// `AllocError` if out of memory.
#[tactic(auto, using(crate::proofs::FloatLemmas::ended_games_float))]
pub fn ended_games_json(
    alloc: Global,
    members: &[Member],
    events: &[Event],
    name: &str,
    moment: Moment,
    games: &[GameEntry],
) -> Result<String, AllocError>
    ensures { IfOk result (λ text. string_bytes text ≡ ended_games_json (members_of members.now)
        (events_of events.now) name.now moment (summaries_of games.now)) }
{
    let value = ended_games_value(alloc, members, events, name, moment, games)?;
    value.to_string(alloc)
}
