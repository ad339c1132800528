//! Builds the view of a game from its own row, and from the rows of one ply.
//! This avoids a replay when a command is executed.

ghost use Rattle.std.specs.Prelude.{◌≡◌, ◌≢◌, ◌≤◌, ◌-◌, ℕ, pos, IfOk, IfSome, IsSome, None, Some, Ok};
ghost use Rattle.std.specs.Prelude.{string_bytes};
ghost use Rattle.club_core.specs.Events as core;
ghost use Rattle.club_core.specs.Game.{Game, game_at, last_position};
ghost use Rattle.club_core.specs.Legal.{IsLegalGame};
ghost use Rattle.club_core.specs.Step.{move_at};
ghost use Rattle.club_core.specs.View.{IsAsked, IsRowOf, IsSound, Shows, ShowsPly, terms_of};
ghost use Rattle.club_rows.specs.internal.Replay.{terms_given};
ghost use Rattle.club_rows.specs.internal.Columns.{columns_in, columns_of};
ghost use Rattle.club_rows.specs.internal.RowView.{HasLastStood, AreRowsAt, IsPlayed};
ghost use Rattle.club_rows.specs.internal.LegalRows.{IsRecordOf};
ghost use Rattle.club_rows.specs.internal.Rulings.{IsBeneath};
ghost use Rattle.club_requests.specs.declared.rulings.Verdict as verdicts;
ghost use Rattle.club_requests.specs.Rulings.{verdict_score, verdict_text};

use crate::columns::{GameColumns, stored_game};
use crate::numbers::to_u64;
use crate::records::to_owned_text;
use crate::replay::{Terms, move_of};
use crate::tally::Occurrences;
use crate::view::{end_with, outside_in, score_of_end};
use club_core::{Asked, GameRow, GameView};
use club_requests::values::{MOST_PLIES, is_increment};
use club_requests::{OutsideEnd, Verdict};
use club_rules::{Memory, Rules};
use squares::Score;
use std::alloc::Global;
use store_tables::{GameTableRow, MoveRow};

// The verdict that the row names.
fn verdict_in(stored: &GameColumns<'_>) -> Option<Verdict>
    ensures found { (v : verdicts.Verdict) → (columns_in stored.now).end ≡ Some (verdict_text v) →
        (columns_in stored.now).result ≡ verdict_score v → result ≡ Some v }
    ensures only { IfSome result (λ v. (columns_in stored.now).end ≡ Some (verdict_text v)) }
{
    match stored.end {
        Some(name) => verdict_with(name, stored.result),
        None => None,
    }
}

// The verdict with this name and this score.
fn verdict_with(name: &str, score: Option<Score>) -> Option<Verdict>
    ensures found { (v : verdicts.Verdict) → name.now ≡ verdict_text v → score ≡ verdict_score v → result ≡ Some v }
    ensures only { IfSome result (λ v. name.now ≡ verdict_text v) }
{
    match name {
        "Awarded" => match score {
            Some(score) => Some(Verdict::Awarded(score)),
            None => None,
        },
        "Void" => Some(Verdict::Voided),
        _ => None,
    }
}

// Converts the stored row to the row of the game logic; `stood` is the repetition count of the last position.
fn row_in<R: Rules>(
    alloc: Global,
    stored: &GameColumns<'_>,
    position: &R::Position,
    stood: Occurrences,
    beneath: Option<OutsideEnd>,
) -> Result<GameRow<R::End>, Memory>
    ensures plies { IfOk result (λ new. new.plies ≡ stored.now.plies) }
    ensures left_first { IfOk result (λ new. new.left_first ≡ stored.now.left_first) }
    ensures left_second { IfOk result (λ new. new.left_second ≡ stored.now.left_second) }
    ensures shows { IfOk result (λ new. (terms : core.Terms) (id : ℕ) (game : Game R.Move) →
        IsLegalGame R.rules terms game → columns_in stored.now ≡ columns_of R.rules terms id game →
        position.now ≡ last_position R.rules game → HasLastStood R.rules game stood → IsBeneath game beneath →
        IsRowOf R.rules terms game new) }
{
    let (first, second) = stored.track;
    let track = R::track_of(first, second);
    let ruled = R::track_end(
        track,
        position,
        stored.plies as usize,
        stood.times,
        stood.first_ply,
    );
    let verdict = verdict_in(stored);
    let outside = outside_in(stored, ruled, verdict, beneath);
    let end = end_with(ruled, verdict, outside);
    let result = score_of_end::<R>(&end, R::turn(position));
    Ok(GameRow {
        key: to_owned_text(alloc, stored.key)?,
        event: stored.event,
        first: stored.first,
        second: stored.second,
        start: stored.start,
        since: stored.since,
        plies: stored.plies,
        left_first: stored.left_first,
        left_second: stored.left_second,
        track: stored.track,
        offer: stored.offer,
        outside,
        end,
        result,
        position: String::from_str(alloc, stored.position)?,
    })
}

/// Builds the view of a game from its row, without a ply; `stood` is the repetition count of its last position,
/// `beneath` the end outside the rules beneath a verdict, if there is a verdict (`has_verdict`). None if no game with
/// these terms has this row.
///
/// # Errors
///
/// `Memory` if out of memory.
///
/// # Guarantees
///
/// `shows`: if this is the row of a legal game, the view is that game's; `found`: then there is a view.
pub fn view_of_row<R: Rules>(
    alloc: Global,
    row: &GameTableRow,
    terms: Terms,
    stood: Occurrences,
    beneath: Option<OutsideEnd>,
) -> Result<Option<GameView<R>>, Memory>
    ensures sound { IfOk result (λ found. IfSome found (IsSound R.rules)) }
    ensures terms { IfOk result (λ found. IfSome found (λ view. terms_of view ≡ terms_given terms)) }
    ensures shows { IfOk result (λ found. IfSome found (λ view. (id : ℕ) (game : Game R.Move) →
        IsRecordOf R.rules (terms_given terms) id row.now game → HasLastStood R.rules game stood →
        IsBeneath game beneath → Shows R.rules game view)) }
    ensures found { IfOk result (λ found. (id : ℕ) (game : Game R.Move) →
        IsRecordOf R.rules (terms_given terms) id row.now game → IsSome found) }
{
    if !is_increment(terms.increment) {
        return Ok(None);
    }
    let stored = match stored_game(row) {
        Some(stored) => stored,
        None => return Ok(None),
    };
    let position = match R::read_position(alloc, stored.position)? {
        Some(position) => position,
        None => return Ok(None),
    };
    let new = row_in::<R>(alloc, &stored, &position, stood, beneath)?;
    let (first, second) = stored.track;
    Ok(Some(GameView {
        row: new,
        budget: terms.budget,
        increment: terms.increment,
        declares: terms.declares,
        position,
        track: R::track_of(first, second),
        asked: None,
    }))
}

/// The rows of a ply and of the ply before it; None if there is no such ply.
#[derive(Drop)]
pub struct PlyRows {
    pub at: Option<MoveRow>,
    pub before: Option<MoveRow>,
}

// The position before a ply.
fn position_before<R: Rules>(
    alloc: Global,
    ply: u64,
    rows: &PlyRows,
) -> Result<Option<R::Position>, Memory>
    requires { 1 ≤ ply }
    // Only if the ply was played.
    ensures { IfOk result (λ found. (terms : core.Terms) (id : ℕ) (game : Game R.Move) →
        IsLegalGame R.rules terms game →
        AreRowsAt R.rules terms id game ply rows.now → IsSome (move_at game ply) →
        found ≡ Some (last_position R.rules (game_at game (ply - 1)))) }
{
    if ply == 1 {
        return Ok(Some(R::start()));
    }
    match &rows.before {
        Some(row) => {
            let found = R::read_position(alloc, row.position.as_str())?;
            Ok(found)
        }
        None => Ok(None),
    }
}

// The remaining seconds in a move's row. None if they are negative.
fn seconds_in(row: &MoveRow) -> Option<u64>
    ensures some { IfSome result (λ n. row.now.left ≡ pos n) }
    ensures none { result ≡ None → (n : ℕ) → row.now.left ≢ pos n }
{
    match to_u64(row.left) {
        Some(left) => Some(left),
        None => None,
    }
}

// The move of a ply, from its row and the position before it.
fn asked_in<R: Rules>(
    alloc: Global,
    ply: u64,
    before: R::Position,
    row: &MoveRow,
) -> Result<Option<Asked<R>>, Memory>
    requires { ply ≤ 600 }
    ensures legal { IfOk result (λ found. IfSome found (λ a. R.rules.check a.before a.made ≡ Ok tt)) }
    ensures shows { IfOk result (λ found. (made : R.Move) (left : ℕ) → R.rules.check before made ≡ Ok tt →
        string_bytes row.now.text ≡ R.rules.write_move before made → row.now.left ≡ pos left →
        (asked : _) × (found ≡ Some asked) × IsPlayed asked ply made left before) }
{
    let left = match seconds_in(row) {
        Some(left) => left,
        None => return Ok(None),
    };
    let made = match move_of::<R>(alloc, &before, row.text.as_str())? {
        Some(made) => made,
        None => return Ok(None),
    };
    Ok(Some(Asked {
        ply: ply as u32,
        made,
        left,
        before,
    }))
}

// The move of a ply, from its rows.
fn asked_by<R: Rules>(alloc: Global, ply: u64, rows: &PlyRows) -> Result<Option<Asked<R>>, Memory>
    ensures legal { IfOk result (λ found. IfSome found (λ a. R.rules.check a.before a.made ≡ Ok tt)) }
    ensures shows { IfOk result (λ found. (terms : core.Terms) (id : ℕ) (game : Game R.Move) →
        IsLegalGame R.rules terms game →
        AreRowsAt R.rules terms id game ply rows.now → IsAsked R.rules terms game ply (move_at game ply) found) }
{
    if ply == 0 || ply > u64::from(MOST_PLIES) {
        return Ok(None);
    }
    let row = match &rows.at {
        Some(row) => row,
        None => return Ok(None),
    };
    let before = match position_before::<R>(alloc, ply, rows)? {
        Some(before) => before,
        None => return Ok(None),
    };
    let asked = asked_in::<R>(alloc, ply, before, row)?;
    Ok(asked)
}

/// Adds the move of a ply (from 1) to the view, from the rows of that ply.
///
/// # Errors
///
/// `Memory` if out of memory.
///
/// # Guarantees
///
/// `ply`: if these are the game's rows, the view has the move of the ply, or None if it was not played.
pub fn with_ply<R: Rules>(
    alloc: Global,
    view: GameView<R>,
    ply: u64,
    rows: &PlyRows,
) -> Result<GameView<R>, Memory>
    requires { IsSound R.rules view }
    ensures sound { IfOk result (IsSound R.rules) }
    ensures row { IfOk result (λ new. new.row ≡ view.row) }
    ensures terms { IfOk result (λ new. terms_of new ≡ terms_of view) }
    ensures shows { IfOk result (λ new. (game : Game R.Move) → Shows R.rules game view → Shows R.rules game new) }
    ensures ply { IfOk result (λ new. (id : ℕ) (game : Game R.Move) → IsLegalGame R.rules (terms_of view) game →
        AreRowsAt R.rules (terms_of view) id game ply rows.now → ShowsPly R.rules game ply new) }
{
    let asked = asked_by::<R>(alloc, ply, rows)?;
    Ok(GameView {
        row: view.row,
        budget: view.budget,
        increment: view.increment,
        declares: view.declares,
        position: view.position,
        track: view.track,
        asked,
    })
}
