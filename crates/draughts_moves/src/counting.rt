//! The number of legal moves.
ghost use Rattle.std.specs.Prelude.{◌≡◌, ◌≤◌, ◌&&◌, length, IfOk};
ghost use Rattle.std.specs.FinSet as set;
ghost use Rattle.draughts_moves.specs.internal.Counting.{IsCountOfLegal, count_squares, sum_squares, quiet_count};
ghost use Rattle.draughts_moves.specs.internal.Counting.{king_count, man_count};
ghost use Rattle.draughts_moves.specs.internal.Listing.{quiet_list};
ghost use Rattle.draughts_moves.specs.internal.Search.{next_in};

use crate::most::own_at;
use crate::move_visitor::longest_captures;
use crate::neighbors::exposed_squares;
use crate::steps::steps_from;
use memory::Memory;
use squares::{DPos, DSet, Direction, Dsq, Side};
use std::alloc::Global;

// The number of squares of the set whose next square in a direction is empty.
fn count_toward(squares: DSet, empty: DSet, toward: Direction) -> usize
    ensures value { result ≡ count_squares (λ n. set.contains squares n && next_in empty toward n) }
    ensures few { result ≤ 50 }
{
    let before = exposed_squares(squares, empty, toward);
    before.len()
}

// The number of quiet moves of the men of the side to move.
fn count_of_men(position: &DPos) -> usize
    ensures value { result ≡ sum_squares (man_count position.now) }
    ensures few { result ≤ 100 }
{
    let own = position.squares_of(position.turn());
    let men = own.difference(position.kings());
    let empty = position.empty_squares();
    match position.turn() {
        Side::First => {
            let left = count_toward(men, empty, Direction::UpLeft);
            left + count_toward(men, empty, Direction::UpRight)
        }
        Side::Second => {
            let left = count_toward(men, empty, Direction::DownLeft);
            left + count_toward(men, empty, Direction::DownRight)
        }
    }
}

// The number of quiet moves of the piece on a square, 0 unless it belongs to the side to move.
fn count_from(position: &DPos, square: Dsq) -> usize
    ensures { result ≡ quiet_count position.now square }
{
    match own_at(position, square) {
        Some(piece) => {
            let targets = steps_from(position, piece, square);
            targets.len()
        }
        None => 0,
    }
}

// The number of quiet moves of the kings of the side to move.
fn count_of_kings(position: &DPos) -> usize
    ensures value { result ≡ sum_squares (king_count position.now) }
    ensures few { result ≤ 2500 }
{
    let own = position.squares_of(position.turn());
    let mut kings = own.intersection(position.kings());
    let mut count = 0;
    while let Some(square) = kings.pop() {
        count += count_from(position, square);
    }
    count
}

// The number of quiet moves of the side to move.
fn count_of_quiet(position: &DPos) -> usize
    ensures { result ≡ length (quiet_list position.now) }
{
    let men = count_of_men(position);
    men + count_of_kings(position)
}

/// The number of legal moves; only captures are listed to count them.
///
/// # Errors
///
/// `Memory` if out of memory.
pub fn legal_move_count(alloc: Global, position: &DPos) -> Result<usize, Memory>
    ensures { IfOk result (λ count. IsCountOfLegal position.now count) }
{
    let found = longest_captures(alloc, position)?;
    if found.size > 0 {
        return Ok(found.moves.as_slice().len());
    }
    Ok(count_of_quiet(position))
}
