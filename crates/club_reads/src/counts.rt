//! Computes the rows of repetition counts and scores that a decision in a game changes.

ghost use Rattle.std.specs.Prelude.{◌≡◌, ◌≢◌, ◌≤◌, ◌+◌, ℕ, pos, length, Some, None, IfOk, is_ok};
ghost use Rattle.sqlite.specs.State.{HasCleanDisk};
ghost use Rattle.sqlite.specs.Held.{state};
ghost use Rattle.club_rules.specs.Line.{IsLegalLine, times_stood, FirstStands};
ghost use Rattle.club_core.specs.Events as core;
ghost use Rattle.club_core.specs.Game.{Entry, Game, last_position, moves_of};
ghost use Rattle.club_core.specs.Legal.{IsLegalGame};
ghost use Rattle.club_core.specs.Step as machine;
ghost use Rattle.club_core.specs.Step.{game_step};
ghost use Rattle.club_core.specs.internal.View.{HasMade};
ghost use Rattle.club_rows.specs.internal.NextScores.{pair_of as pair, IsFound as score_found};
ghost use Rattle.club_rows.specs.internal.Seen.{IsSeenRow};
ghost use Rattle.club_rows.specs.Tables.{with_entry};
ghost use Rattle.store_tables.specs.Cells.{seen_cells};
ghost use Rattle.store_tables.specs.declared.rows.SeenRow.{SeenRow};
ghost use Rattle.store_tables.specs.internal.Over.{HasRows};
ghost use Rattle.store_tables.specs.Contents.{Content};
ghost use Rattle.store_tables.specs.Reading.{Reads};
ghost use Rattle.store_tables.specs.Names.{tree_of};
ghost use Rattle.store_tables.specs.declared.names.Table.TheVariants.{Scores};
ghost use Rattle.club_changes.specs.internal.Steps.{FindsSeenRows, IsSeenAfter, HasTwoPlayers, AreScoresAfter};
ghost use Rattle.club_changes.specs.internal.Steps.{AreScoresRuled, ChangesScores, PutsScores, PutsScoresOf};
ghost use Rattle.club_changes.specs.internal.Steps.{score_list};

use crate::fault::LookupFault;
use crate::found::first;
use club_core::{Decision, GameRow, Pairing};
use club_rows::{Occurrences, ScoreRows, occurrences_in, score_after, score_changed, seen_after};
use club_rules::Rules;
use sqlite::{Alter, Connection};
use squares::Score;
use std::alloc::Global;
use store_sql::{ScoreKey, SeenPosition, find};
use store_tables::{ScoreRow, SeenRow};

// The row of a position after a ply: its present row with the count incremented, or a new one.
fn seen_at<R: Rules, S: Alter>(
    alloc: Global,
    conn: &mut Connection<S>,
    game: u32,
    position: &R::Position,
    ply: u32,
) -> Result<SeenRow, LookupFault>
    ensures reads { Reads (is_ok result) (state S.Store conn.old) (state S.Store conn.new) }
    ensures seen { HasCleanDisk (state S.Store conn.new) → IfOk result (λ row. (content : Content) (old : Game R.Move)
        (e : Entry R.Move) → HasRows content (state S.Store conn.old) → FindsSeenRows R.rules game old content →
        position.now ≡ last_position R.rules (with_entry old e) → length old.entries ≤ 600 →
        ply ≡ length old.entries + 1 →
        IsSeenRow R.rules game (with_entry old e) (R.rules.write_position position.now) (seen_cells row)) }
{
    let text = R::write_position(alloc, position)?;
    let question = SeenPosition {
        game: i64::from(game),
        position: text.as_str(),
    };
    let found = first(find(alloc, conn, &question)?);
    let row = seen_after::<R>(alloc, game, text.as_str(), found.as_ref(), ply)?;
    Ok(row)
}

/// Returns the row of the position after the decision's move; None if the decision made no move. `plies` is the number
/// of plies before it.
///
/// # Errors
///
/// - `Store` if a call of the database fails, or a row is invalid.
/// - `Memory` if out of memory.
pub fn seen_row_of_decision<R: Rules, S: Alter>(
    alloc: Global,
    conn: &mut Connection<S>,
    game: u32,
    decision: &Decision<R>,
    plies: u32,
) -> Result<Option<SeenRow>, LookupFault>
    requires { plies ≤ 600 }
    ensures reads { Reads (is_ok result) (state S.Store conn.old) (state S.Store conn.new) }
    ensures seen { HasCleanDisk (state S.Store conn.new) → IfOk result (λ seen. (content : Content) (terms : core.Terms)
        (old : Game R.Move) (moment : ℕ) (who : _) (command : machine.GameCommand) →
        HasRows content (state S.Store conn.old) → FindsSeenRows R.rules game old content →
        IsLegalGame R.rules terms old → plies ≡ length old.entries →
        HasMade R.rules old (game_step R.rules terms old moment who command) decision.now →
        IsSeenAfter R.rules game (game_step R.rules terms old moment who command) decision.now seen) }
{
    match decision {
        Decision::Accepted {
            row: _,
            made,
            answer: _,
        } => match made {
            Some(made) => {
                let row = seen_at::<R, S>(alloc, conn, game, &made.position, plies + 1)?;
                Ok(Some(row))
            }
            None => Ok(None),
        },
        _ => Ok(None),
    }
}

/// The position's repetition count and first ply; zeros (unused) if there is no row.
pub fn occurrences_of<R: Rules>(seen: &Option<SeenRow>) -> Occurrences
    ensures { (row : SeenRow) → seen.now ≡ Some row → (id : ℕ) (game : Game R.Move) →
        IsLegalLine R.rules R.rules.start (moves_of game) →
        IsSeenRow R.rules id game (R.rules.write_position (last_position R.rules game)) (seen_cells row) →
        (result.times ≡ times_stood R.rules R.rules.start (moves_of game))
        × FirstStands R.rules R.rules.start (moves_of game) result.first_ply }
{
    match seen {
        Some(row) => occurrences_in::<R>(row),
        None => Occurrences {
            times: 0,
            first_ply: 0,
        },
    }
}

fn pair_of(event: u32, member: u32, opponent: u32) -> ScoreKey
    ensures event { result.event ≡ pos event }
    ensures member { result.member ≡ pos member }
    ensures opponent { result.opponent ≡ pos opponent }
{
    ScoreKey {
        event: i64::from(event),
        member: i64::from(member),
        opponent: i64::from(opponent),
    }
}

// The row of a member's score against an opponent in an event, if they have met.
fn score_of<S: Alter>(
    alloc: Global,
    conn: &mut Connection<S>,
    event: u32,
    member: u32,
    opponent: u32,
) -> Result<Option<ScoreRow>, LookupFault>
    ensures reads { Reads (is_ok result) (state S.Store conn.old) (state S.Store conn.new) }
    ensures found { HasCleanDisk (state S.Store conn.new) → IfOk result (λ row. (content : Content) →
        HasRows content (state S.Store conn.old) →
        score_found (content (tree_of Scores)) (pair event member opponent) row) }
{
    let question = pair_of(event, member, opponent);
    let row = first(find(alloc, conn, &question)?);
    Ok(row)
}

/// Returns both players' rows of scores after a game with this score, None for a void one; `one` plays First.
///
/// # Errors
///
/// - `Store` if a call of the database fails, a row is invalid, or a sum overflows.
/// - `Memory` if out of memory.
pub fn score_rows_after<S: Alter>(
    alloc: Global,
    conn: &mut Connection<S>,
    event: u32,
    one: u32,
    other: u32,
    score: Option<Score>,
) -> Result<ScoreRows, LookupFault>
    ensures reads { Reads (is_ok result) (state S.Store conn.old) (state S.Store conn.new) }
    ensures puts { HasCleanDisk (state S.Store conn.new) → IfOk result (λ pair. (content : Content) →
        HasRows content (state S.Store conn.old) → one ≢ other →
        PutsScores (content (tree_of Scores)) event one other score (score_list (Some pair))) }
{
    let firsts = score_of(alloc, conn, event, one, other)?;
    let seconds = score_of(alloc, conn, event, other, one)?;
    let pairing = Pairing {
        event,
        first: one,
        second: other,
    };
    match score_after(pairing, score, firsts.as_ref(), seconds.as_ref()) {
        Some(pair) => Ok(pair),
        None => Err(LookupFault::Store),
    }
}

/// Returns both players' rows of scores if the decision ends the game, else None.
///
/// # Errors
///
/// - `Store` if a call of the database fails, a row is invalid, or a sum overflows.
/// - `Memory` if out of memory.
pub fn score_rows_of_decision<R: Rules, S: Alter>(
    alloc: Global,
    conn: &mut Connection<S>,
    decision: &Decision<R>,
) -> Result<Option<ScoreRows>, LookupFault>
    ensures reads { Reads (is_ok result) (state S.Store conn.old) (state S.Store conn.new) }
    ensures scores { HasCleanDisk (state S.Store conn.new) → IfOk result (λ scores. (content : Content) →
        HasRows content (state S.Store conn.old) → HasTwoPlayers decision.now →
        AreScoresAfter (content (tree_of Scores)) decision.now scores) }
{
    let row = match decision {
        Decision::Accepted {
            row,
            made: _,
            answer: _,
        } => row,
        _ => return Ok(None),
    };
    ended_scores(alloc, conn, row)
}

// Both players' rows of scores after the game in this row, if it has ended.
fn ended_scores<E, S: Alter>(
    alloc: Global,
    conn: &mut Connection<S>,
    row: &GameRow<E>,
) -> Result<Option<ScoreRows>, LookupFault>
    ensures reads { Reads (is_ok result) (state S.Store conn.old) (state S.Store conn.new) }
    ensures scores { HasCleanDisk (state S.Store conn.new) → IfOk result (λ scores. (content : Content) →
        HasRows content (state S.Store conn.old) → row.now.first ≢ row.now.second →
        PutsScoresOf (content (tree_of Scores)) row.now.event row.now.first row.now.second row.now.end row.now.result
        (score_list scores)) }
{
    match row.end {
        Some(_) => {
            let pair = score_rows_after(alloc, conn, row.event, row.first, row.second, row.result)?;
            Ok(Some(pair))
        }
        None => Ok(None),
    }
}

// Both players' rows of scores after the result of the ended game in this row has changed.
fn changed_scores<E, S: Alter>(
    alloc: Global,
    conn: &mut Connection<S>,
    row: &GameRow<E>,
    old: Option<Score>,
) -> Result<ScoreRows, LookupFault>
    ensures reads { Reads (is_ok result) (state S.Store conn.old) (state S.Store conn.new) }
    ensures changes { HasCleanDisk (state S.Store conn.new) → IfOk result (λ pair. (content : Content) →
        HasRows content (state S.Store conn.old) → row.now.first ≢ row.now.second →
        ChangesScores (content (tree_of Scores)) row.now.event row.now.first row.now.second old row.now.result
        (score_list (Some pair))) }
{
    let firsts = score_of(alloc, conn, row.event, row.first, row.second)?;
    let seconds = score_of(alloc, conn, row.event, row.second, row.first)?;
    let pairing = Pairing {
        event: row.event,
        first: row.first,
        second: row.second,
    };
    match score_changed(pairing, old, row.result, firsts.as_ref(), seconds.as_ref()) {
        Some(pair) => Ok(pair),
        None => Err(LookupFault::Store),
    }
}

/// Returns both players' rows of scores if the ruling changes the result of the game, or ends it; else None. `old` is
/// the game's row before the ruling.
///
/// # Errors
///
/// - `Store` if a call of the database fails, a row is invalid, or a sum overflows.
/// - `Memory` if out of memory.
pub fn score_rows_of_ruling<R: Rules, S: Alter>(
    alloc: Global,
    conn: &mut Connection<S>,
    old: &GameRow<R::End>,
    decision: &Decision<R>,
) -> Result<Option<ScoreRows>, LookupFault>
    ensures reads { Reads (is_ok result) (state S.Store conn.old) (state S.Store conn.new) }
    ensures scores { HasCleanDisk (state S.Store conn.new) → IfOk result (λ scores. (content : Content) →
        HasRows content (state S.Store conn.old) → HasTwoPlayers decision.now →
        AreScoresRuled (content (tree_of Scores)) old.now decision.now scores) }
{
    let row = match decision {
        Decision::Accepted {
            row,
            made: _,
            answer: _,
        } => row,
        _ => return Ok(None),
    };
    match old.end {
        Some(_) => {
            let pair = changed_scores(alloc, conn, row, old.result)?;
            Ok(Some(pair))
        }
        None => ended_scores(alloc, conn, row),
    }
}
