//! Rows that an import adds.

ghost use Rattle.std.specs.Prelude.{◌≡◌, [], ◌∷◌, map, Option, Some, IfOk};
ghost use Rattle.club_core.specs.internal.Answer.{events_of};
ghost use Rattle.club_core.specs.Events.{event_kind};
ghost use Rattle.store_tables.specs.Cells.{game_cells, move_cells, seen_cells};
ghost use Rattle.club_changes.specs.internal.Steps.{Puts, score_list, no_rows};

use crate::decided::changes_at;
use crate::game::listed_scores;
use crate::imported::NewRows;
use crate::stored::StoredGame;
use clocks::Moment;
use club_core::{Event, KeyedGame, Member};
use club_rows::ScoreRows;
use club_rules::{GameKind, Memory};
use std::alloc::Global;
use store_tables::Changes;

/// The state of the club that an import needs.
#[derive(Drop)]
pub struct ImportContext {
    /// All members, in the order of ids.
    pub members: Vec<Member>,
    /// All events, in the order of ids.
    pub events: Vec<Event>,
    /// The id and the pairing of the game with the import's key.
    pub keyed: Option<KeyedGame>,
    /// The stored game with that key.
    pub under: Option<StoredGame>,
    /// The number of games in the club.
    pub games: u32,
}

/// The kind of the event with this name; draughts if there is none.
pub fn event_kind(events: &[Event], name: &str) -> GameKind
    ensures { result ≡ event_kind (events_of events.now) name.now }
{
    for i in 0..events.len() {
        let event = &events[i];
        if event.name.as_str() == name {
            return event.game;
        }
    }
    GameKind::Draughts
}

/// Returns the rows to upsert for an imported game.
///
/// # Errors
///
/// `Memory` if out of memory.
pub fn put_rows(
    alloc: Global,
    rows: NewRows,
    scores: ScoreRows,
    moment: Moment,
) -> Result<Changes, Memory>
    ensures { IfOk result
        (λ changes.
        Puts changes moment
        (record no_rows {
          games = game_cells rows.game ∷ [];
          moves = map move_cells rows.moves.items;
          seen =
              map seen_cells rows.seen.items;
          scores = score_list (Some scores);
        })) }
{
    let mut changes = changes_at(alloc, moment);
    changes.games.push(rows.game)?;
    changes.moves = rows.moves;
    changes.seen = rows.seen;
    changes.scores = listed_scores(alloc, Some(scores))?;
    Ok(changes)
}
