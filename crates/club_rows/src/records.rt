//! Converts games and moves to rows.

ghost use Rattle.std.specs.Prelude.{◌≡◌, ◌<◌, ◌^◌, pos, IfOk, string_bytes};
ghost use Rattle.std.specs.Option.{option_map};
ghost use Rattle.squares.specs.Sides.{score_text};
ghost use Rattle.club_core.specs.Events.{Terms};
ghost use Rattle.club_core.specs.Game.{Game};
ghost use Rattle.club_core.specs.View.{IsRowOf};
ghost use Rattle.store_tables.specs.Cells.{game_cells, move_cells};
ghost use Rattle.club_core.specs.Answer.{move_reply_of};
ghost use Rattle.club_rows.specs.internal.Made.{made_row};
ghost use Rattle.club_rows.specs.Tables.{number, side_number, game_row, end_name_text};

use crate::ends::{end_name, side_number};
use crate::numbers::to_i64;
use clocks::Moment;
use club_core::rows::copy_key;
use club_core::{GameRow, Offer};
use club_requests::MoveAnswer;
use club_rules::{Memory, Rules};
use squares::Score;
use std::alloc::Global;
use store_tables::{GameTableRow, MoveRow};

/// Copies an optional text.
///
/// # Errors
///
/// `Memory` if out of memory.
pub fn to_owned_text(alloc: Global, text: Option<&str>) -> Result<Option<String>, Memory>
    ensures { IfOk result (λ copy. option_map (λ s. string_bytes s) copy ≡ option_map (λ s. s.now) text.entry) }
{
    match text {
        Some(text) => Ok(Some(String::from_str(alloc, text)?)),
        None => Ok(None),
    }
}

// The text of an optional score.
pub(crate) fn owned_score(alloc: Global, score: Option<Score>) -> Result<Option<String>, Memory>
    ensures { IfOk result (λ text. option_map (λ s. string_bytes s) text ≡ option_map score_text score) }
{
    match score {
        Some(score) => Ok(Some(String::from_str(alloc, score.text())?)),
        None => Ok(None),
    }
}

fn end_text<R: Rules>(alloc: Global, row: &GameRow<R::End>) -> Result<Option<String>, Memory>
    ensures { IfOk result (λ text. option_map (λ s. string_bytes s) text
        ≡ option_map (end_name_text R.rules) row.now.end) }
{
    match &row.end {
        Some(end) => Ok(Some(String::from_str(alloc, end_name::<R>(end))?)),
        None => Ok(None),
    }
}

fn offer_side(offer: Option<Offer>) -> Option<i64>
    ensures { result ≡ option_map (λ o. pos (side_number o.side)) offer }
{
    match offer {
        Some(offer) => Some(side_number(offer.side)),
        None => None,
    }
}

fn offer_ply(offer: Option<Offer>) -> Option<i64>
    ensures { result ≡ option_map (λ o. pos o.ply) offer }
{
    match offer {
        Some(offer) => Some(i64::from(offer.ply)),
        None => None,
    }
}

/// Converts a game to its row in `games`.
///
/// # Errors
///
/// `Memory` if out of memory.
pub fn record_of<R: Rules>(
    alloc: Global,
    id: u32,
    row: &GameRow<R::End>,
) -> Result<GameTableRow, Memory>
    // Seconds below 2^63 are stored exactly.
    ensures { IfOk result (λ r. row.now.left_first < 2 ^ 63 → row.now.left_second < 2 ^ 63 →
        (terms : Terms) (game : Game R.Move) → IsRowOf R.rules terms game row.now →
        game_cells r ≡ game_row R.rules terms id game) }
{
    let key = copy_key(&row.key)?;
    let end = end_text::<R>(alloc, row)?;
    let result = owned_score(alloc, row.result)?;
    let position = row.position.clone()?;
    Ok(GameTableRow {
        id: i64::from(id),
        key,
        event: i64::from(row.event),
        first: i64::from(row.first),
        second: i64::from(row.second),
        start: to_i64(row.start.seconds()),
        since: to_i64(row.since.seconds()),
        plies: i64::from(row.plies),
        left1: to_i64(row.left_first),
        left2: to_i64(row.left_second),
        offer_side: offer_side(row.offer),
        offer_ply: offer_ply(row.offer),
        end,
        result,
        position,
        track_a: i64::from(row.track.0),
        track_b: i64::from(row.track.1),
    })
}

/// Converts a move to its row in `moves`.
///
/// # Errors
///
/// `Memory` if out of memory.
pub fn move_row(game: u32, moved: &MoveAnswer, moment: Moment) -> Result<MoveRow, Memory>
    // Seconds below 2^63 are stored exactly.
    ensures { IfOk result (λ r. moved.now.left < 2 ^ 63 →
        move_cells r ≡ made_row game (move_reply_of moved.now) moment) }
{
    let text = moved.text.clone()?;
    let position = moved.position.clone()?;
    Ok(MoveRow {
        game: i64::from(game),
        ply: i64::from(moved.ply),
        text,
        moment: to_i64(moment.seconds()),
        left: to_i64(moved.left),
        position,
    })
}
