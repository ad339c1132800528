//! Reads the running games of a member, each with its last move and its position.

ghost use Rattle.std.specs.Prelude.{◌≡◌, ℕ, List, Some, IfOk, is_ok, length, map, string_bytes};
ghost use Rattle.std.specs.Option.{option_map};
ghost use Rattle.sqlite.specs.State.{HasCleanDisk};
ghost use Rattle.sqlite.specs.Held.{state};
ghost use Rattle.store_tables.specs.internal.Over.{HasRows};
ghost use Rattle.store_tables.specs.Contents.{Content};
ghost use Rattle.store_tables.specs.Reading.{Reads};
ghost use Rattle.club_core.specs.Game.{Game, moves_of};
ghost use Rattle.club_core.specs.State.{place};
ghost use Rattle.club_rows.specs.Club.{ClubGame, ClubState, IsClub, tables};
ghost use Rattle.club_rows.specs.internal.Replay.{terms_given};
ghost use Rattle.club_changes.specs.internal.Steps.{FindsMoveRows};
ghost use Rattle.club_changes.specs.internal.Stored.{IsStoredGame};
ghost use Rattle.club_lists.specs.internal.SummaryViews.{running_view};
ghost use Rattle.club_answers.specs.Boards.{moves_in};
ghost use Rattle.club_answers.specs.Games.{game_summary_of};
ghost use Rattle.club_answers.specs.Running.{AreRunningAt, last_text, running_of};
ghost use Rattle.club_analysis.specs.Tried.{notation_from};

use crate::games::entry_of;
use crate::kinds::last_in;
use club_changes::StoredGame;
use club_lists::RunningGame;
use club_reads::{LookupFault, row_of, stored_game};
use club_rules::Rules;
use sqlite::{Alter, Connection};
use std::alloc::Global;

/// The text of the last move of a stored game with this number of plies; `None` before the first move.
pub(crate) fn last_move<R: Rules, S: Alter>(
    alloc: Global,
    conn: &mut Connection<S>,
    stored: &StoredGame,
    plies: u32,
) -> Result<Option<String>, LookupFault>
    ensures reads { Reads (is_ok result) (state S.Store conn.old) (state S.Store conn.new) }
    ensures last { HasCleanDisk (state S.Store conn.new) → IfOk result (λ text. (content : Content)
        (game : Game R.Move) → plies ≡ length game.entries → HasRows content (state S.Store conn.old) →
        FindsMoveRows R.rules (terms_given stored.now.terms) stored.now.id game content →
        option_map string_bytes text ≡ last_text (notation_from R.rules R.rules.start (moves_of game))) }
{
    match row_of::<R, S>(alloc, conn, stored.id, plies)? {
        Some(row) => Ok(Some(row.text)),
        None => Ok(None),
    }
}

// A stored game as a member's running game.
fn running_in<S: Alter>(
    alloc: Global,
    conn: &mut Connection<S>,
    stored: StoredGame,
) -> Result<RunningGame, LookupFault>
    ensures reads { Reads (is_ok result) (state S.Store conn.old) (state S.Store conn.new) }
    ensures running { HasCleanDisk (state S.Store conn.new) → IfOk result (λ running. (s : ClubState) (id : ℕ)
        (game : ClubGame) → IsClub s → place s.games id ≡ Some game → IsStoredGame s id game stored →
        HasRows (tables s) (state S.Store conn.old) → running_view running ≡ running_of s id game) }
{
    let entry = entry_of(alloc, &stored.row)?;
    let last = last_in(alloc, conn, &stored, entry.plies)?;
    let row = stored.row;
    let position = row.position;
    Ok(RunningGame {
        entry,
        last,
        position,
    })
}

// The game with this id, which must exist.
fn running_at<S: Alter>(
    alloc: Global,
    conn: &mut Connection<S>,
    id: u32,
) -> Result<RunningGame, LookupFault>
    ensures reads { Reads (is_ok result) (state S.Store conn.old) (state S.Store conn.new) }
    ensures running { HasCleanDisk (state S.Store conn.new) → IfOk result (λ running. (s : ClubState) → IsClub s →
        HasRows (tables s) (state S.Store conn.old) →
        (game : ClubGame) × (place s.games id ≡ Some game) × (running_view running ≡ running_of s id game)) }
{
    match stored_game(alloc, conn, u64::from(id))? {
        Some(stored) => {
            let running = running_in(alloc, conn, stored)?;
            Ok(running)
        }
        None => Err(LookupFault::Store),
    }
}

/// The games with these ids, in this order.
pub(crate) fn all_running<S: Alter>(
    alloc: Global,
    conn: &mut Connection<S>,
    ids: &[u32],
) -> Result<Vec<RunningGame>, LookupFault>
    ensures reads { Reads (is_ok result) (state S.Store conn.old) (state S.Store conn.new) }
    ensures running { HasCleanDisk (state S.Store conn.new) → IfOk result (λ games. (s : ClubState) → IsClub s →
        HasRows (tables s) (state S.Store conn.old) → AreRunningAt s ids.now (map running_view games.items)) }
{
    let mut games = Vec::new(alloc);
    for id in ids {
        let running = running_at(alloc, conn, *id)?;
        games.push(running)?;
    }
    Ok(games)
}
