//! The moves and the result of a stored game, as an import compares them with a record.

ghost use Rattle.std.specs.Prelude.{◌≡◌, ◌+◌, ◌<◌, ◌^◌, pos, true, IfOk, IfSome, List, is_some, map, string_bytes};
ghost use Rattle.club_core.specs.Events as core;
ghost use Rattle.club_core.specs.Game.{Game, moves_of, result_beneath};
ghost use Rattle.club_imports.specs.internal.Importing.{IsPlayedOf};
ghost use Rattle.club_rules.specs.Line.{IsLegalLine};
ghost use Rattle.club_rows.specs.internal.Columns.{columns_in, stored_cells};
ghost use Rattle.club_rows.specs.internal.LegalRows.{IsRecordOf};
ghost use Rattle.club_rows.specs.internal.Rulings.{IsBeneath};
ghost use Rattle.club_rows.specs.Tables.{move_rows};
ghost use Rattle.store_tables.specs.Cells.{game_cells, move_cells};
ghost use Rattle.store_tables.specs.Changes.{HaveSame};

use club_imports::PlayedGame;
use club_requests::OutsideEnd;
use club_requests::values::MOST_PLIES;
use club_rows::columns::{GameColumns, stored_game};
use club_rows::ends::side_after;
use club_rows::has_verdict;
use club_rows::numbers::to_i64;
use club_rows::replay::move_of;
use club_rules::{Memory, Rules};
use squares::Score;
use std::alloc::Global;
use store_tables::{GameTableRow, MoveRow};

// Whether the row is of the next ply after `plies`.
fn is_next(row: &MoveRow, plies: usize) -> bool
    requires { plies + 1 < 2 ^ 63 }
    ensures { result ≡ true → row.now.ply ≡ pos (1 + plies) }
{
    row.ply == to_i64(plies as u64 + 1)
}

// The moves of these rows. None if there are more rows than a game has plies, they are not in the order of plies, or a
// text is not that of a legal move.
fn moves_in<R: Rules>(alloc: Global, rows: &[MoveRow]) -> Result<Option<Vec<R::Move>>, Memory>
    ensures { IfOk result (λ found. IfSome found (λ moves. (terms : core.Terms) (id : _) (game : Game R.Move) →
        IsLegalLine R.rules R.rules.start (moves_of game) →
        HaveSame (map move_cells rows.now) (move_rows R.rules terms id game) → moves.items ≡ moves_of game)) }
{
    if rows.len() > MOST_PLIES as usize {
        return Ok(None);
    }
    let mut position = R::start();
    let mut moves = Vec::new(alloc);
    for i in 0..rows.len() {
        let row = &rows[i];
        if !is_next(row, i) {
            return Ok(None);
        }
        let made = match move_of::<R>(alloc, &position, row.text.as_str())? {
            Some(made) => made,
            None => return Ok(None),
        };
        position = R::play(&position, &made);
        moves.push(made)?;
    }
    Ok(Some(moves))
}

// The result of the game in this row without the arbiter's verdict, which has this end beneath it.
fn result_beneath<R: Rules>(
    row: &GameTableRow,
    stored: &GameColumns<'_>,
    beneath: Option<OutsideEnd>,
) -> Option<Score>
    ensures { (terms : core.Terms) (id : _) (game : Game R.Move) → IsRecordOf R.rules terms id row.now game →
        IsBeneath game beneath → game_cells row.now ≡ stored_cells (columns_in stored.now) →
        result ≡ result_beneath R.rules game }
{
    if !has_verdict::<R>(row) {
        return stored.result;
    }
    match beneath {
        Some(end) => Some(end.score(side_after(u64::from(stored.plies)))),
        None => None,
    }
}

/// Returns the moves of a stored game and its result without the arbiter's verdict, which has the end `beneath` it. The
/// rows must be in the order of plies. None if they are not those of a legal game.
///
/// # Errors
///
/// `Memory` if out of memory.
pub fn played_of<R: Rules>(
    alloc: Global,
    row: &GameTableRow,
    moves: &[MoveRow],
    beneath: Option<OutsideEnd>,
) -> Result<Option<PlayedGame<R::Move>>, Memory>
    ensures { IfOk result (λ found. IfSome found (λ played. (terms : core.Terms) (id : _) (game : Game R.Move) →
        IsRecordOf R.rules terms id row.now game → IsBeneath game beneath →
        HaveSame (map move_cells moves.now) (move_rows R.rules terms id game) →
        IsPlayedOf R.rules game played)) }
{
    let Some(stored) = stored_game(row) else {
        return Ok(None);
    };
    match moves_in::<R>(alloc, moves)? {
        Some(moves) => Ok(Some(PlayedGame {
            moves,
            result: result_beneath::<R>(row, &stored, beneath),
        })),
        None => Ok(None),
    }
}
