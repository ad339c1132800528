//! Reads the moves and the result of a stored game.

ghost use Rattle.std.specs.Prelude.{Option, Some, IfOk, is_ok};
ghost use Rattle.sqlite.specs.State.{HasCleanDisk};
ghost use Rattle.sqlite.specs.Held.{state};
ghost use Rattle.club_core.specs.Game.{Game};
ghost use Rattle.club_imports.specs.internal.Importing.{IsPlayedOf, ShowsPlayed};
ghost use Rattle.club_rows.specs.internal.Replay.{terms_given};
ghost use Rattle.store_tables.specs.internal.Over.{HasRows};
ghost use Rattle.store_tables.specs.Contents.{Content};
ghost use Rattle.store_tables.specs.Reading.{Reads};
ghost use Rattle.club_changes.specs.internal.Importing.{IsOfKind, TellsLine};
ghost use Rattle.club_changes.specs.Steps.{IsRecordOf};
ghost use Rattle.club_reads.specs.internal.Rulings.{FindsVerdict, FindsVerdictUnder};

use crate::fault::LookupFault;
use crate::shown::end_beneath;
use club_changes::{StoredGame, played_of};
use club_imports::PlayedGame;
use club_rules::{GameKind, Rules};
use sqlite::{Alter, Connection};
use std::alloc::Global;
use store_sql::find_by_first;
use store_tables::MoveRow;

// The moves and the result of a stored game.
pub(crate) fn played_in<R: Rules, S: Alter>(
    alloc: Global,
    conn: &mut Connection<S>,
    stored: &StoredGame,
) -> Result<PlayedGame<R::Move>, LookupFault>
    ensures reads { Reads (is_ok result) (state S.Store conn.old) (state S.Store conn.new) }
    ensures played { HasCleanDisk (state S.Store conn.new) → IfOk result (λ played. (content : Content)
        (game : Game R.Move) → HasRows content (state S.Store conn.old) →
        TellsLine R.rules (terms_given stored.now.terms) stored.now.id game content →
        FindsVerdict stored.now.id game content (state S.Store conn.old) →
        IsRecordOf R.rules (terms_given stored.now.terms) stored.now.id stored.now.row game →
        IsPlayedOf R.rules game played) }
{
    let id = i64::from(stored.id);
    let rows = find_by_first::<MoveRow, S>(alloc, conn, &id)?;
    let beneath = end_beneath::<R, S>(alloc, conn, stored)?;
    match played_of::<R>(alloc, &stored.row, &rows, beneath)? {
        Some(played) => Ok(played),
        None => Err(LookupFault::Store),
    }
}

/// Returns the moves and the result of the game `under` a key; None if there is no game, or it is of another kind.
///
/// # Errors
///
/// - `Store` if a call of the database fails, or the rows are not those of a legal game.
/// - `Memory` if out of memory.
pub fn played_under<R: Rules, S: Alter>(
    alloc: Global,
    conn: &mut Connection<S>,
    kind: GameKind,
    under: &Option<StoredGame>,
) -> Result<Option<PlayedGame<R::Move>>, LookupFault>
    ensures reads { Reads (is_ok result) (state S.Store conn.old) (state S.Store conn.new) }
    ensures played { HasCleanDisk (state S.Store conn.new) → IfOk result (λ played. (content : Content)
        (old : Option (Game R.Move)) → HasRows content (state S.Store conn.old) →
        IsOfKind R.rules kind content old under.now → FindsVerdictUnder old under.now content (state S.Store conn.old) →
        ShowsPlayed R.rules old played) }
{
    let stored = match under {
        Some(stored) => stored,
        None => return Ok(None),
    };
    if stored.kind != kind {
        return Ok(None);
    }
    let played = played_in::<R, S>(alloc, conn, stored)?;
    Ok(Some(played))
}
