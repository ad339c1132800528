//! Reads the state of the club that an import needs.

ghost use Rattle.std.specs.Prelude.{◌≡◌, ◌≤◌, ℕ, List, length, Option, Some, IfOk, is_ok};
ghost use Rattle.sqlite.specs.State.{HasCleanDisk};
ghost use Rattle.sqlite.specs.Held.{state};
ghost use Rattle.club_core.specs.State.{game_under};
ghost use Rattle.club_rows.specs.Club.{ClubState, IsClub, StoresClub, tables};
ghost use Rattle.club_rows.specs.Tables.{version_of};
ghost use Rattle.store_tables.specs.internal.Over.{HasRows};
ghost use Rattle.store_tables.specs.Reading.{Reads};
ghost use Rattle.club_changes.specs.internal.Importing.{IsUnder, IsKnown};

use crate::events::all_events;
use crate::fault::LookupFault;
use crate::found::first;
use crate::games::{count_games, ids_in, read_game};
use crate::people::all_members;
use club_changes::{ImportContext, StoredGame};
use club_core::KeyedGame;
use sqlite::{Alter, Connection};
use std::alloc::Global;
use store_sql::{GameKey, find};
use store_tables::Version;

// The stored game with this key, if there is one.
pub(crate) fn stored_under<S: Alter>(
    alloc: Global,
    conn: &mut Connection<S>,
    key: &str,
) -> Result<Option<StoredGame>, LookupFault>
    ensures reads { Reads (is_ok result) (state S.Store conn.old) (state S.Store conn.new) }
    ensures found { HasCleanDisk (state S.Store conn.new) → IfOk result (λ found. (s : ClubState) → IsClub s →
        HasRows (tables s) (state S.Store conn.old) → IsUnder s key.now found) }
{
    match first(find(alloc, conn, &GameKey { key })?) {
        Some(row) => {
            let stored = read_game(alloc, conn, row)?;
            Ok(Some(stored))
        }
        None => Ok(None),
    }
}

fn keyed(under: &Option<StoredGame>) -> Result<Option<KeyedGame>, LookupFault>
    ensures { IfOk result (λ k. (s : ClubState) (key : List ℕ) → IsUnder s key under.now →
        k ≡ game_under s.games key) }
{
    match under {
        Some(stored) => Ok(Some(ids_in(&stored.row)?)),
        None => Ok(None),
    }
}

/// Returns the state that an import under this key needs, of a club of this version: members, events, the game with
/// the key, and the number of games.
///
/// # Errors
///
/// - `Store` if a call of the database fails, or a row is invalid.
/// - `Memory` if out of memory.
pub fn read_known<S: Alter>(
    alloc: Global,
    version: Version,
    conn: &mut Connection<S>,
    key: &str,
) -> Result<ImportContext, LookupFault>
    ensures reads { Reads (is_ok result) (state S.Store conn.old) (state S.Store conn.new) }
    ensures members { IfOk result (λ known. length known.members.items ≤ 200) }
    ensures events { IfOk result (λ known. length known.events.items ≤ 50) }
    ensures known { HasCleanDisk (state S.Store conn.new) → IfOk result (λ known. (s : ClubState) → IsClub s →
        version ≡ version_of s → StoresClub s (state S.Store conn.old) → IsKnown s key.now known) }
{
    let under = stored_under(alloc, conn, key)?;
    let keyed = keyed(&under)?;
    let games = count_games(conn)?;
    let members = all_members(alloc, version, conn)?;
    let events = all_events(alloc, version, conn)?;
    Ok(ImportContext {
        members,
        events,
        keyed,
        under,
        games,
    })
}
