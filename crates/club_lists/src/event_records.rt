//! The games of an event whose records are exported.

ghost use Rattle.std.specs.Prelude.{◌≡◌, IfOk};
ghost use Rattle.club_core.specs.internal.Answer.{events_of};
ghost use Rattle.club_core.specs.Events.{event_kind};
ghost use Rattle.club_lists.specs.EventRecords.{event_game_ids};
ghost use Rattle.club_lists.specs.internal.SummaryViews.{summaries_of};

use crate::game_entry::GameEntry;
use crate::member_json::is_of_event;
use club_core::Event;
use club_rules::GameKind;
use std::alloc::{AllocError, Global};

/// The game of the event with this name; `Draughts` if there is no such event.
pub fn event_kind(events: &[Event], name: &str) -> GameKind
    ensures { result ≡ event_kind (events_of events.now) name.now }
{
    for event in events {
        if event.name.as_str() == name {
            return event.game;
        }
    }
    GameKind::Draughts
}

/// The ids of the games of the event with this name, in order.
///
/// # Errors
///
/// `AllocError` if out of memory.
pub fn event_game_ids(
    alloc: Global,
    events: &[Event],
    name: &str,
    games: &[GameEntry],
) -> Result<Vec<u32>, AllocError>
    ensures { IfOk result (λ ids. ids.items ≡ event_game_ids (events_of events.now) name.now (summaries_of games.now)) }
{
    let mut ids = Vec::new(alloc);
    for game in games {
        if !is_of_event(events, name, game) {
            continue;
        }
        ids.push(game.id)?;
    }
    Ok(ids)
}
