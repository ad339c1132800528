//! Builds the view of a game from its own row, and from the rows of one ply.

ghost use Rattle.std.specs.Prelude.{◌≡◌, ◌<◌, pos, IfOk, IsSome, List, Option, is_ok, None};
ghost use Rattle.std.specs.Option.{option_map};
ghost use Rattle.club_requests.specs.declared.outside_end.OutsideEnd as outside_end;
ghost use Rattle.club_core.specs.Events as core;
ghost use Rattle.club_core.specs.Game.{Game};
ghost use Rattle.club_core.specs.Legal.{IsLegalGame};
ghost use Rattle.club_core.specs.Rulings as core_rulings;
ghost use Rattle.club_core.specs.Rulings.{verdict_of};
ghost use Rattle.club_core.specs.View.{IsSound, Shows, ShowsPly, terms_of};
ghost use Rattle.club_rows.specs.Rulings.{ArePossible};
ghost use Rattle.club_rows.specs.internal.Replay.{terms_given};
ghost use Rattle.club_rows.specs.internal.RowView.{HasLastStood, AreRowsAt, row_at};
ghost use Rattle.sqlite.specs.State.{HasCleanDisk};
ghost use Rattle.sqlite.specs.Held.{state};
ghost use Rattle.store_tables.specs.Cells.{move_cells};
ghost use Rattle.store_tables.specs.internal.Over.{HasRows};
ghost use Rattle.store_tables.specs.Contents.{Content};
ghost use Rattle.store_tables.specs.Reading.{Reads};
ghost use Rattle.club_rows.specs.internal.Rulings.{IsBeneath, rulings_given};
ghost use Rattle.club_reads.specs.internal.Rulings.{FindsRulingRows, FindsVerdict};
ghost use Rattle.club_changes.specs.Steps.{IsRecordOf};
ghost use Rattle.club_changes.specs.internal.Steps.{FindsMoveRows, FindsSeenRows};

use crate::fault::LookupFault;
use crate::found::first;
use club_changes::StoredGame;
use club_core::GameView;
use club_requests::OutsideEnd;
use club_requests::values::MOST_PLIES;
use club_rows::{
    GameRulings, Occurrences, PlyRows, has_verdict, occurrences_in, read_rulings, view_of_row,
    with_ply,
};
use club_rules::Rules;
use sqlite::{Alter, Connection};
use std::alloc::Global;
use store_sql::{MovePly, SeenPosition, find, find_by_first};
use store_tables::{MoveRow, RulingRow};

fn position_of<'a>(game: u32, position: &'a str) -> SeenPosition<'a>
    ensures game { result.game ≡ pos game }
    ensures position { result.position.now ≡ position.now }
{
    SeenPosition {
        game: i64::from(game),
        position,
    }
}

// The repetition count and first ply of the game's last position.
fn last_occurrences<R: Rules, S: Alter>(
    alloc: Global,
    conn: &mut Connection<S>,
    stored: &StoredGame,
) -> Result<Occurrences, LookupFault>
    ensures reads { Reads (is_ok result) (state S.Store conn.old) (state S.Store conn.new) }
    ensures stood { HasCleanDisk (state S.Store conn.new) →
        IfOk result (λ stood. (content : Content) (game : Game R.Move) →
        HasRows content (state S.Store conn.old) → FindsSeenRows R.rules stored.now.id game content →
        IsRecordOf R.rules (terms_given stored.now.terms) stored.now.id stored.now.row game →
        HasLastStood R.rules game stood) }
{
    let question = position_of(stored.id, stored.row.position.as_str());
    match first(find(alloc, conn, &question)?) {
        Some(row) => Ok(occurrences_in::<R>(&row)),
        None => Err(LookupFault::Store),
    }
}

fn ply_of(game: u32, ply: u32) -> MovePly
    ensures game { result.game ≡ pos game }
    ensures ply { result.ply ≡ pos ply }
{
    MovePly {
        game: i64::from(game),
        ply: i64::from(ply),
    }
}

/// Returns the row of a ply (from 1), if it was played.
///
/// # Errors
///
/// - `Store` if a call of the database fails, or a row is invalid.
/// - `Memory` if out of memory.
pub fn row_of<R: Rules, S: Alter>(
    alloc: Global,
    conn: &mut Connection<S>,
    game: u32,
    ply: u32,
) -> Result<Option<MoveRow>, LookupFault>
    ensures reads { Reads (is_ok result) (state S.Store conn.old) (state S.Store conn.new) }
    ensures found { HasCleanDisk (state S.Store conn.new) → IfOk result (λ row. (content : Content) (terms : core.Terms)
        (old : Game R.Move) → HasRows content (state S.Store conn.old) → FindsMoveRows R.rules terms game old content →
        option_map move_cells row ≡ row_at R.rules terms game old ply) }
{
    let question = ply_of(game, ply);
    let row = first(find(alloc, conn, &question)?);
    Ok(row)
}

/// Returns the arbiter's rulings on the game with this id, in the order of their numbers, of a club with an arbiter.
///
/// # Errors
///
/// - `Store` if a call of the database fails, or the rows are not those of rulings.
/// - `Memory` if out of memory.
pub fn rulings_on<S: Alter>(
    alloc: Global,
    conn: &mut Connection<S>,
    game: u32,
) -> Result<GameRulings, LookupFault>
    ensures reads { Reads (is_ok result) (state S.Store conn.old) (state S.Store conn.new) }
    ensures possible { IfOk result (λ read. ArePossible (rulings_given read.given.items)) }
    ensures found { HasCleanDisk (state S.Store conn.new) → IfOk result (λ read. (content : Content)
        (rulings : List core_rulings.GivenRuling) (outside : Option outside_end.OutsideEnd) →
        FindsRulingRows game rulings outside content (state S.Store conn.old) →
        (rulings_given read.given.items ≡ rulings) × (IsSome (verdict_of rulings) → read.beneath ≡ outside)) }
{
    let id = i64::from(game);
    let rows = find_by_first::<RulingRow, S>(alloc, conn, &id)?;
    match read_rulings(alloc, game, &rows)? {
        Some(rulings) => Ok(rulings),
        None => Err(LookupFault::Store),
    }
}

/// Returns the end outside the rules that the arbiter's first verdict on a stored game replaced. Without a verdict it
/// is None, and nothing is read.
///
/// # Errors
///
/// - `Store` if a call of the database fails, or the rows are not those of rulings.
/// - `Memory` if out of memory.
pub(crate) fn end_beneath<R: Rules, S: Alter>(
    alloc: Global,
    conn: &mut Connection<S>,
    stored: &StoredGame,
) -> Result<Option<OutsideEnd>, LookupFault>
    ensures reads { Reads (is_ok result) (state S.Store conn.old) (state S.Store conn.new) }
    ensures beneath { HasCleanDisk (state S.Store conn.new) → IfOk result (λ end. (content : Content)
        (game : Game R.Move) → FindsVerdict stored.now.id game content (state S.Store conn.old) →
        IsRecordOf R.rules (terms_given stored.now.terms) stored.now.id stored.now.row game → IsBeneath game end) }
{
    if !has_verdict::<R>(&stored.row) {
        return Ok(None);
    }
    let rulings = rulings_on(alloc, conn, stored.id)?;
    Ok(rulings.beneath)
}

fn no_rows() -> PlyRows
    ensures at { result.at ≡ None }
    ensures before { result.before ≡ None }
{
    PlyRows {
        at: None,
        before: None,
    }
}

// The rows of a ply and of the ply before it. No query for plies that no game can have.
fn rows_at<R: Rules, S: Alter>(
    alloc: Global,
    conn: &mut Connection<S>,
    game: u32,
    ply: u64,
) -> Result<PlyRows, LookupFault>
    ensures reads { Reads (is_ok result) (state S.Store conn.old) (state S.Store conn.new) }
    ensures found { HasCleanDisk (state S.Store conn.new) →
        IfOk result (λ rows. (content : Content) (terms : core.Terms)
        (old : Game R.Move) → HasRows content (state S.Store conn.old) → FindsMoveRows R.rules terms game old content →
        IsLegalGame R.rules terms old → AreRowsAt R.rules terms game old ply rows) }
{
    if ply == 0 {
        return Ok(no_rows());
    }
    if ply > u64::from(MOST_PLIES) + 1 {
        return Ok(no_rows());
    }
    let at = row_of::<R, S>(alloc, conn, game, ply as u32)?;
    let before = row_of::<R, S>(alloc, conn, game, ply as u32 - 1)?;
    Ok(PlyRows { at, before })
}

/// Builds the view of a stored game, without a ply.
///
/// # Errors
///
/// - `Store` if a call of the database fails, or a row is invalid.
/// - `Memory` if out of memory.
pub fn view<R: Rules, S: Alter>(
    alloc: Global,
    conn: &mut Connection<S>,
    stored: &StoredGame,
) -> Result<GameView<R>, LookupFault>
    ensures reads { Reads (is_ok result) (state S.Store conn.old) (state S.Store conn.new) }
    ensures sound { IfOk result (IsSound R.rules) }
    ensures terms { IfOk result (λ view. terms_of view ≡ terms_given stored.now.terms) }
    ensures shows { HasCleanDisk (state S.Store conn.new) →
        IfOk result (λ view. (content : Content) (game : Game R.Move) →
        HasRows content (state S.Store conn.old) → FindsSeenRows R.rules stored.now.id game content →
        FindsVerdict stored.now.id game content (state S.Store conn.old) →
        IsRecordOf R.rules (terms_given stored.now.terms) stored.now.id stored.now.row game → Shows R.rules game view) }
{
    let stood = last_occurrences::<R, S>(alloc, conn, stored)?;
    let beneath = end_beneath::<R, S>(alloc, conn, stored)?;
    match view_of_row::<R>(alloc, &stored.row, stored.terms, stood, beneath)? {
        Some(view) => Ok(view),
        None => Err(LookupFault::Store),
    }
}

/// Builds the view of a stored game with the move of a ply (from 1).
///
/// # Errors
///
/// - `Store` if a call of the database fails, or a row is invalid.
/// - `Memory` if out of memory.
pub fn view_at_ply<R: Rules, S: Alter>(
    alloc: Global,
    conn: &mut Connection<S>,
    stored: &StoredGame,
    ply: u64,
) -> Result<GameView<R>, LookupFault>
    ensures reads { Reads (is_ok result) (state S.Store conn.old) (state S.Store conn.new) }
    ensures sound { IfOk result (IsSound R.rules) }
    ensures terms { IfOk result (λ view. terms_of view ≡ terms_given stored.now.terms) }
    ensures shows { HasCleanDisk (state S.Store conn.new) →
        IfOk result (λ view. (content : Content) (game : Game R.Move) →
        HasRows content (state S.Store conn.old) → FindsSeenRows R.rules stored.now.id game content →
        FindsMoveRows R.rules (terms_given stored.now.terms) stored.now.id game content →
        FindsVerdict stored.now.id game content (state S.Store conn.old) →
        IsRecordOf R.rules (terms_given stored.now.terms) stored.now.id stored.now.row game →
        Shows R.rules game view × ShowsPly R.rules game ply view) }
{
    let view = view::<R, S>(alloc, conn, stored)?;
    let rows = rows_at::<R, S>(alloc, conn, stored.id, ply)?;
    let asked = with_ply(alloc, view, ply, &rows)?;
    Ok(asked)
}
