//! Writes the record of one game.

ghost use Rattle.std.specs.Prelude.{◌≡◌, ℕ, Some, true, false, Err, IfOk, OnOk};
ghost use Rattle.sqlite.specs.State.{HasCleanDisk};
ghost use Rattle.sqlite.specs.Held.{state};
ghost use Rattle.store_tables.specs.Reading.{Reads};
ghost use Rattle.club_core.specs.State.{place};
ghost use Rattle.club_rows.specs.Club.{ClubGame, ClubState, IsClub, StoresClub};
ghost use Rattle.club_answers.specs.internal.Exported.{no_call_failed, IsExported, IsWrittenSome};
ghost use Rattle.club_changes.specs.internal.Stored.{IsStoredGame};

use crate::exported::{ViewFault, names_of};
use crate::kinds::export_in;
use club_changes::StoredGame;
use club_reads::stored_game;
use sqlite::{Alter, Connection};
use std::alloc::Global;
use std::io::Write;

fn export_stored<S: Alter, W: Write>(
    alloc: Global,
    conn: &mut Connection<S>,
    stored: &StoredGame,
    writer: &mut W,
) -> Result<(), ViewFault>
    ensures reads { Reads (no_call_failed result) (state S.Store conn.old) (state S.Store conn.new) }
    ensures written { HasCleanDisk (state S.Store conn.new) → OnOk result ((s : ClubState) (id : ℕ)
        (game : ClubGame) → IsClub s → place s.games id ≡ Some game → IsStoredGame s id game stored.now →
        StoresClub s (state S.Store conn.old) →
        IsExported s id true (W.contents writer.old) (W.contents writer.new)) }
    ensures begun { HasCleanDisk (state S.Store conn.new) → (s : ClubState) (id : ℕ)
        (game : ClubGame) → IsClub s → place s.games id ≡ Some game → IsStoredGame s id game stored.now →
        StoresClub s (state S.Store conn.old) →
        IsWrittenSome s id (W.contents writer.old) (W.contents writer.new) }
{
    let names = names_of(alloc, conn, stored)?;
    export_in(alloc, conn, stored, &names, writer)
}

/// Writes the record of the game with this number; `false`, and nothing is written, if there is no such game.
///
/// # Errors
///
/// - `ViewFault::Call`: reading the tables failed.
/// - `ViewFault::Output`: the writer failed.
///
/// # Guarantees
///
/// `begun`: after an error the writer has a prefix of the record.
pub fn export_game<S: Alter, W: Write>(
    alloc: Global,
    conn: &mut Connection<S>,
    game: u64,
    writer: &mut W,
) -> Result<bool, ViewFault>
    ensures reads { Reads (no_call_failed result) (state S.Store conn.old) (state S.Store conn.new) }
    ensures written { HasCleanDisk (state S.Store conn.new) → IfOk result (λ found. (s : ClubState) → IsClub s →
        StoresClub s (state S.Store conn.old) →
        IsExported s game found (W.contents writer.old) (W.contents writer.new)) }
    ensures begun { HasCleanDisk (state S.Store conn.new) → (s : ClubState) → IsClub s →
        StoresClub s (state S.Store conn.old) →
        IsWrittenSome s game (W.contents writer.old) (W.contents writer.new) }
{
    match stored_game(alloc, conn, game)? {
        Some(stored) => match export_stored(alloc, conn, &stored, writer) {
            Ok(()) => Ok(true),
            Err(stopped) => Err(stopped),
        },
        None => Ok(false),
    }
}
