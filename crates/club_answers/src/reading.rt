//! Reads one game: its legal moves, or all that is shown of it.

ghost use Rattle.std.specs.Prelude.{◌≡◌, ℕ, Some, IfOk, is_ok, map};
ghost use Rattle.std.specs.Prelude.{string_bytes};
ghost use Rattle.std.specs.Option.{option_map};
ghost use Rattle.sqlite.specs.State.{HasCleanDisk};
ghost use Rattle.sqlite.specs.Held.{state};
ghost use Rattle.store_tables.specs.Reading.{Reads};
ghost use Rattle.club_core.specs.State.{place};
ghost use Rattle.club_rows.specs.Club.{ClubGame, ClubState, IsClub, StoresClub};
ghost use Rattle.club_changes.specs.Stored.{AreLegalRows};
ghost use Rattle.club_changes.specs.internal.Stored.{IsStoredGame};
ghost use Rattle.club_answers.specs.Viewed.{IsViewOf, IsViewed};

use crate::exported::names_of;
use crate::kinds::{legal_in, played_in};
use crate::viewed::ViewedGame;
use club_changes::StoredGame;
use club_reads::{LookupFault, stored_game};
use sqlite::{Alter, Connection};
use std::alloc::Global;

/// The legal moves of a game in the notation of its kind; `None` if there is no game with this number.
///
/// # Errors
///
/// - `LookupFault::Store`: a call of the database failed, or its rows are not a club's.
/// - `LookupFault::Memory`: out of memory.
pub fn legal_of<S: Alter>(
    alloc: Global,
    conn: &mut Connection<S>,
    game: u64,
) -> Result<Option<Vec<String>>, LookupFault>
    ensures reads { Reads (is_ok result) (state S.Store conn.old) (state S.Store conn.new) }
    ensures rows { HasCleanDisk (state S.Store conn.new) → IfOk result (λ found. (s : ClubState) → IsClub s →
        StoresClub s (state S.Store conn.old) →
        AreLegalRows s game (option_map (λ texts. map (λ t. string_bytes t) texts.items) found)) }
{
    match stored_game(alloc, conn, game)? {
        Some(stored) => {
            let texts = legal_in(alloc, conn, &stored)?;
            Ok(Some(texts))
        }
        None => Ok(None),
    }
}

/// A stored game with the names of its event and of its players.
pub(crate) fn viewed<S: Alter>(
    alloc: Global,
    conn: &mut Connection<S>,
    stored: &StoredGame,
) -> Result<ViewedGame, LookupFault>
    ensures reads { Reads (is_ok result) (state S.Store conn.old) (state S.Store conn.new) }
    ensures viewed { HasCleanDisk (state S.Store conn.new) → IfOk result (λ viewed. (s : ClubState) (id : ℕ)
        (game : ClubGame) → IsClub s → place s.games id ≡ Some game → IsStoredGame s id game stored.now →
        StoresClub s (state S.Store conn.old) → IsViewOf s game viewed) }
{
    let names = names_of(alloc, conn, stored)?;
    let played = played_in(alloc, conn, stored)?;
    Ok(ViewedGame {
        event: names.event,
        first: names.first,
        second: names.second,
        played,
    })
}

/// The game with this number; `None` if there is none.
///
/// # Errors
///
/// - `LookupFault::Store`: a call of the database failed, or its rows are not a club's.
/// - `LookupFault::Memory`: out of memory.
pub fn view_of<S: Alter>(
    alloc: Global,
    conn: &mut Connection<S>,
    game: u64,
) -> Result<Option<ViewedGame>, LookupFault>
    ensures reads { Reads (is_ok result) (state S.Store conn.old) (state S.Store conn.new) }
    ensures viewed { HasCleanDisk (state S.Store conn.new) → IfOk result (λ found. (s : ClubState) → IsClub s →
        StoresClub s (state S.Store conn.old) → IsViewed s game found) }
{
    let found = stored_game(alloc, conn, game)?;
    match found {
        Some(stored) => {
            let viewed = viewed(alloc, conn, &stored)?;
            Ok(Some(viewed))
        }
        None => Ok(None),
    }
}
