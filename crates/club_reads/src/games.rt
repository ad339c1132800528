//! Reads stored games.

ghost use Rattle.std.specs.Prelude.{◌≡◌, ◌<◌, ℕ, Some, None, IfOk, is_ok};
ghost use Rattle.std.specs.Prelude.{length};
ghost use Rattle.sqlite.specs.State.{HasCleanDisk};
ghost use Rattle.sqlite.specs.Held.{state};
ghost use Rattle.club_core.specs.State.{place, game_under, keyed_game};
ghost use Rattle.club_rows.specs.Tables.{number};
ghost use Rattle.store_tables.specs.Cells.{game_cells};
ghost use Rattle.store_tables.specs.internal.Over.{HasRows};
ghost use Rattle.store_tables.specs.Reading.{Reads};
ghost use Rattle.club_rows.specs.Club.{ClubGame, ClubState, IsClub, tables};
ghost use Rattle.club_changes.specs.internal.Steps.{game_in};
ghost use Rattle.club_changes.specs.internal.Stored.{IsStoredGame, IsFoundGame};
ghost use Rattle.std.specs.Prelude.{Option};

use crate::events::event_with;
use crate::fault::LookupFault;
use crate::found::first;
use club_changes::{StoredGame, terms_of};
use club_core::{KeyedGame, Pairing};
use club_rows::numbers::id;
use sqlite::{Alter, Connection};
use std::alloc::Global;
use store_sql::{GameKey, count, find, find_by_first};
use store_tables::GameTableRow;

/// The ids in the row of a game: its own, its event's and its players'.
///
/// # Errors
///
/// `Store` if an id is out of range.
pub fn ids_in(row: &GameTableRow) -> Result<KeyedGame, LookupFault>
    ensures { IfOk result (λ k. (s : ClubState) (id : ℕ) (game : ClubGame) →
        game_cells row.now ≡ game_in s id game →
        Some k ≡ keyed_game (Some game) id) }
{
    let (Some(game), Some(event), Some(first), Some(second)) = (
        id(row.id),
        id(row.event),
        id(row.first),
        id(row.second),
    ) else {
        return Err(LookupFault::Store);
    };
    Ok(KeyedGame {
        game,
        pairing: Pairing {
            event,
            first,
            second,
        },
    })
}

/// Returns the ids of the game with this key, if there is one.
///
/// # Errors
///
/// - `Store` if a call of the database fails, or a row is invalid.
/// - `Memory` if out of memory.
pub fn game_under<S: Alter>(
    alloc: Global,
    conn: &mut Connection<S>,
    key: &str,
) -> Result<Option<KeyedGame>, LookupFault>
    ensures reads { Reads (is_ok result) (state S.Store conn.old) (state S.Store conn.new) }
    ensures found { HasCleanDisk (state S.Store conn.new) → IfOk result (λ k. (s : ClubState) → IsClub s →
        HasRows (tables s) (state S.Store conn.old) →
        k ≡ game_under s.games key.now) }
{
    match first(find(alloc, conn, &GameKey { key })?) {
        Some(row) => Ok(Some(ids_in(&row)?)),
        None => Ok(None),
    }
}

// Joins the row of a game with the kind and terms of its event.
pub(crate) fn read_game<S: Alter>(
    alloc: Global,
    conn: &mut Connection<S>,
    row: GameTableRow,
) -> Result<StoredGame, LookupFault>
    ensures reads { Reads (is_ok result) (state S.Store conn.old) (state S.Store conn.new) }
    ensures found { HasCleanDisk (state S.Store conn.new) → IfOk result (λ stored. (s : ClubState) (id : ℕ)
        (game : ClubGame) → IsClub s → place s.games id ≡ Some game → game_cells row ≡ game_in s id game →
        HasRows (tables s) (state S.Store conn.old) → IsStoredGame s id game stored) }
{
    let ids = ids_in(&row)?;
    let event = event_with(alloc, conn, ids.pairing.event)?;
    Ok(StoredGame {
        id: ids.game,
        kind: event.game,
        terms: terms_of(&event),
        row,
    })
}

/// Returns the stored game with this number, if there is one.
///
/// # Errors
///
/// - `Store` if a call of the database fails, or a row is invalid.
/// - `Memory` if out of memory.
pub fn stored_game<S: Alter>(
    alloc: Global,
    conn: &mut Connection<S>,
    game: u64,
) -> Result<Option<StoredGame>, LookupFault>
    ensures reads { Reads (is_ok result) (state S.Store conn.old) (state S.Store conn.new) }
    ensures found { HasCleanDisk (state S.Store conn.new) → IfOk result (λ found. (s : ClubState) → IsClub s →
        HasRows (tables s) (state S.Store conn.old) → IsFoundGame s game found) }
{
    let Ok(id) = i64::try_from(game) else {
        return Ok(None);
    };
    match first(find_by_first::<GameTableRow, S>(alloc, conn, &id)?) {
        Some(row) => {
            let stored = read_game(alloc, conn, row)?;
            Ok(Some(stored))
        }
        None => Ok(None),
    }
}

/// Counts the games.
///
/// # Errors
///
/// `Store` if a call of the database fails, or the count does not fit in 32 bits.
pub fn count_games<S: Alter>(conn: &mut Connection<S>) -> Result<u32, LookupFault>
    ensures reads { Reads (is_ok result) (state S.Store conn.old) (state S.Store conn.new) }
    ensures count { HasCleanDisk (state S.Store conn.new) → IfOk result (λ games. (s : ClubState) →
        HasRows (tables s) (state S.Store conn.old) → games ≡ length s.games) }
{
    match u32::try_from(count::<GameTableRow, S>(conn)?) {
        Ok(games) => Ok(games),
        Err(_) => Err(LookupFault::Store),
    }
}
