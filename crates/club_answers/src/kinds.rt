//! Dispatch by the kind of a game (draughts or shogi) to its rules.

ghost use Rattle.std.specs.Prelude.{◌≡◌, ◌⊎◌, ℕ, map, IfOk, OnOk, is_ok, Some, string_bytes};
ghost use Rattle.club_core.specs.State.{place};
ghost use Rattle.club_rows.specs.Club.{ClubGame, ClubState, IsClub, StoresClub, tables};
ghost use Rattle.store_tables.specs.internal.Over.{HasRows};
ghost use Rattle.store_tables.specs.Reading.{Reads};
ghost use Rattle.sqlite.specs.State.{HasCleanDisk};
ghost use Rattle.sqlite.specs.Held.{state};
ghost use Rattle.club_answers.specs.internal.Exported.{AddsGame, BeginsGame, no_call_failed};
ghost use Rattle.club_changes.specs.Stored.{AreMovesOf};
ghost use Rattle.club_changes.specs.internal.Stored.{IsStoredGame};
ghost use Rattle.std.specs.Option.{option_map};
ghost use Rattle.club_answers.specs.Boards.{moves_in};
ghost use Rattle.club_answers.specs.Games.{game_summary_of};
ghost use Rattle.club_answers.specs.Running.{last_text};
ghost use Rattle.club_answers.specs.Viewed.{IsPlayedIn};

use crate::exported::{RecordNames, ViewFault, write_record};
use crate::listed::legal;
use crate::running::last_move;
use crate::viewed::{GameProgress, make_played};
use club_changes::StoredGame;
use club_games::by_kind;
use club_reads::LookupFault;
use sqlite::{Alter, Connection};
use std::alloc::Global;
use std::io::Write;

/// The legal moves of a stored game, in the notation of its kind.
pub(crate) fn legal_in<S: Alter>(
    alloc: Global,
    conn: &mut Connection<S>,
    stored: &StoredGame,
) -> Result<Vec<String>, LookupFault>
    ensures reads { Reads (is_ok result) (state S.Store conn.old) (state S.Store conn.new) }
    ensures legal { HasCleanDisk (state S.Store conn.new) → IfOk result (λ texts. (s : ClubState) (id : ℕ)
        (game : ClubGame) → IsClub s → place s.games id ≡ Some game → IsStoredGame s id game stored.now →
        StoresClub s (state S.Store conn.old) → AreMovesOf game (map (λ t. string_bytes t) texts.items)) }
{
    by_kind!(stored.kind, legal::<_, S>(alloc, conn, stored))
}

/// The moves, clocks and result of a stored game so far.
pub(crate) fn played_in<S: Alter>(
    alloc: Global,
    conn: &mut Connection<S>,
    stored: &StoredGame,
) -> Result<GameProgress, LookupFault>
    ensures reads { Reads (is_ok result) (state S.Store conn.old) (state S.Store conn.new) }
    ensures played { HasCleanDisk (state S.Store conn.new) → IfOk result (λ played. (s : ClubState) (id : ℕ)
        (game : ClubGame) → IsClub s → place s.games id ≡ Some game → IsStoredGame s id game stored.now →
        StoresClub s (state S.Store conn.old) → IsPlayedIn s game played) }
{
    by_kind!(stored.kind, make_played::<_, S>(alloc, conn, stored))
}

/// The last move of a stored game with this number of plies.
pub(crate) fn last_in<S: Alter>(
    alloc: Global,
    conn: &mut Connection<S>,
    stored: &StoredGame,
    plies: u32,
) -> Result<Option<String>, LookupFault>
    ensures reads { Reads (is_ok result) (state S.Store conn.old) (state S.Store conn.new) }
    ensures last { HasCleanDisk (state S.Store conn.new) → IfOk result (λ text. (s : ClubState) (id : ℕ)
        (game : ClubGame) → IsClub s → place s.games id ≡ Some game → IsStoredGame s id game stored.now →
        plies ≡ (game_summary_of s id game).plies → HasRows (tables s) (state S.Store conn.old) →
        option_map string_bytes text ≡ last_text (moves_in game)) }
{
    by_kind!(stored.kind, last_move::<_, S>(alloc, conn, stored, plies))
}

/// Writes the record of a stored game in the format of its kind.
pub(crate) fn export_in<S: Alter, W: Write>(
    alloc: Global,
    conn: &mut Connection<S>,
    stored: &StoredGame,
    names: &RecordNames,
    writer: &mut W,
) -> Result<(), ViewFault>
    ensures reads { Reads (no_call_failed result) (state S.Store conn.old) (state S.Store conn.new) }
    ensures written { HasCleanDisk (state S.Store conn.new) → OnOk result ((s : ClubState) (id : ℕ)
        (game : ClubGame) → IsClub s → place s.games id ≡ Some game → IsStoredGame s id game stored.now →
        StoresClub s (state S.Store conn.old) →
        AddsGame names.now game (W.contents writer.old) (W.contents writer.new)) }
    ensures begun { HasCleanDisk (state S.Store conn.new) → (s : ClubState) (id : ℕ)
        (game : ClubGame) → IsClub s → place s.games id ≡ Some game → IsStoredGame s id game stored.now →
        StoresClub s (state S.Store conn.old) → (writer.new ≡ writer.old) ⊎
        BeginsGame names.now game (W.contents writer.old) (W.contents writer.new) }
{
    by_kind!(
        stored.kind,
        write_record::<_, S, W>(alloc, conn, stored, names, writer)
    )
}
