//! The standings of an event, as JSON.

ghost use Rattle.std.specs.Prelude.{◌≡◌, IfOk, map, string_bytes};
ghost use Rattle.serde_json.specs.View.{view};
ghost use Rattle.club_core.specs.internal.Answer.{events_of, members_of};
ghost use Rattle.club_lists.specs.Standings.{counts_in, event_game, games_in_event, standing_data, standings_from};
ghost use Rattle.club_lists.specs.Standings.{standings_data, standings_json};
ghost use Rattle.club_lists.specs.internal.SummaryViews.{summaries_of, summary_of};

use crate::event_records::event_kind;
use crate::game_entry::GameEntry;
use crate::lines::game_name;
use crate::listing::member_name;
use club_core::{Event, Member};
use cross_tables::{EventGame, FieldLine};
use serde_json::{Value, json};
use std::alloc::{AllocError, Global};

// The players of a game, and whether it has ended.
fn event_game(game: &GameEntry) -> EventGame
    ensures { result ≡ event_game (summary_of game.now) }
{
    EventGame {
        first: game.first,
        second: game.second,
        is_over: game.is_over(),
    }
}

// Whether the game is one of the event with this id, and not void.
fn counts_in(event: u32, game: &GameEntry) -> bool
    ensures { result ≡ counts_in event (summary_of game.now) }
{
    if game.event != event {
        return false;
    }
    !game.is_void()
}

/// The games of the event with this id that are not void, in their order.
///
/// # Errors
///
/// `AllocError` if out of memory.
pub fn games_in_event(
    alloc: Global,
    event: u32,
    games: &[GameEntry],
) -> Result<Vec<EventGame>, AllocError>
    ensures { IfOk result (λ found. found.items ≡ games_in_event event (summaries_of games.now)) }
{
    let mut found = Vec::new(alloc);
    for game in games {
        if !counts_in(event, game) {
            continue;
        }
        found.push(event_game(game))?;
    }
    Ok(found)
}

// A line at a place, from 1.
#[tactic(auto, unfolding(crate::specs::Standings::standing_data))]
fn standing_value(
    alloc: Global,
    members: &[Member],
    place: u64,
    line: &FieldLine,
) -> Result<Value, AllocError>
    ensures { IfOk result (λ value. view value ≡ standing_data (members_of members.now) place line.now) }
{
    let sums = line.standing.sums;
    json!(in alloc; {
        "draws": sums.draws,
        "games": sums.games(),
        "losses": sums.losses,
        "member": member_name(members, line.standing.member),
        "place": place,
        "points": sums.points,
        "running": line.running,
        "sonneborn_berger": line.sonneborn_berger,
        "wins": sums.wins
    })
}

// The lines, with places from 1.
fn standing_values(
    alloc: Global,
    members: &[Member],
    lines: &[FieldLine],
) -> Result<Vec<Value>, AllocError>
    ensures { IfOk result (λ values. map view values.items ≡ standings_from (members_of members.now) 1 lines.now) }
{
    let mut values = Vec::new(alloc);
    for line in lines {
        let place = values.len() as u64 + 1;
        values.push(standing_value(alloc, members, place, line)?)?;
    }
    Ok(values)
}

#[tactic(auto, unfolding(crate::specs::Standings::standings_data))]
fn standings_value(
    alloc: Global,
    members: &[Member],
    events: &[Event],
    name: &str,
    lines: &[FieldLine],
) -> Result<Value, AllocError>
    ensures { IfOk result (λ value. view value ≡
        standings_data (members_of members.now) (events_of events.now) name.now lines.now) }
{
    json!(in alloc; {
        "event": name,
        "kind": game_name(event_kind(events, name)),
        "standings": standing_values(alloc, members, lines)?
    })
}

/// The event with this name, its game, and these lines with their places, as a JSON object.
///
/// # Errors
///
/// `AllocError` if out of memory.
#[tactic(auto, using(crate::proofs::FloatLemmas::standings_float))]
pub fn standings_json(
    alloc: Global,
    members: &[Member],
    events: &[Event],
    name: &str,
    lines: &[FieldLine],
) -> Result<String, AllocError>
    ensures { IfOk result (λ text. string_bytes text ≡
        standings_json (members_of members.now) (events_of events.now) name.now lines.now) }
{
    let value = standings_value(alloc, members, events, name, lines)?;
    value.to_string(alloc)
}
