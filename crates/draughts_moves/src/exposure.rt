//! A fast test for kings that can jump.
ghost use Rattle.std.specs.Prelude.{◌≡◌, ◌||◌, ℕ, Some, true, false, is_some};
ghost use Rattle.std.specs.FinMap as map;
ghost use Rattle.std.specs.FinSet as set;
ghost use Rattle.squares.specs.declared.draughts.direction.Direction.TheVariants as direction;
ghost use Rattle.squares.specs.declared.draughts.piece.DPiece.{DPiece};
ghost use Rattle.draughts_moves.specs.Search.{own_at, greatest_at};
ghost use Rattle.draughts_moves.specs.internal.Search.{AreExposed, faces};

use crate::neighbors::exposed_squares;
use squares::{DPos, DSet, Direction, Dsq, Side};

// All pieces, and for each direction the enemies that have an empty square behind them.
#[derive(Drop)]
struct Sight {
    pieces: DSet,
    up_left: DSet,
    up_right: DSet,
    down_left: DSet,
    down_right: DSet,
}

// The pieces and exposed enemies for the kings of the side to move.
fn look(position: &DPos) -> Sight
    ensures pieces { (n : ℕ) → set.contains result.pieces n ≡ is_some (map.get position.now.board n) }
    ensures up_left { AreExposed position.now direction.UpLeft result.up_left }
    ensures up_right { AreExposed position.now direction.UpRight result.up_right }
    ensures down_left { AreExposed position.now direction.DownLeft result.down_left }
    ensures down_right { AreExposed position.now direction.DownRight result.down_right }
{
    let first = position.squares_of(Side::First);
    let enemies = position.squares_of(position.turn().other());
    let empty = position.empty_squares();
    Sight {
        pieces: first.union(position.squares_of(Side::Second)),
        up_left: exposed_squares(enemies, empty, Direction::UpLeft),
        up_right: exposed_squares(enemies, empty, Direction::UpRight),
        down_left: exposed_squares(enemies, empty, Direction::DownLeft),
        down_right: exposed_squares(enemies, empty, Direction::DownRight),
    }
}

// Whether the first of `pieces` in a direction is in `these`.
fn faces(from: Dsq, toward: Direction, pieces: DSet, these: DSet) -> bool
    ensures { result ≡ faces pieces these toward from }
{
    match from.first_on(toward, pieces) {
        Some(first) => these.contains(first),
        None => false,
    }
}

// Whether a king on a square can jump.
fn king_can_jump(sight: &Sight, square: Dsq) -> bool
    ensures { result ≡ (faces (set.remove sight.now.pieces square) sight.now.up_left direction.UpLeft square
        || (faces (set.remove sight.now.pieces square) sight.now.up_right direction.UpRight square
        || (faces (set.remove sight.now.pieces square) sight.now.down_left direction.DownLeft square
        || faces (set.remove sight.now.pieces square) sight.now.down_right direction.DownRight square))) }
{
    let pieces = sight.pieces.without(square);
    if faces(square, Direction::UpLeft, pieces, sight.up_left) {
        return true;
    }
    if faces(square, Direction::UpRight, pieces, sight.up_right) {
        return true;
    }
    if faces(square, Direction::DownLeft, pieces, sight.down_left) {
        return true;
    }
    faces(square, Direction::DownRight, pieces, sight.down_right)
}

/// The kings of the side to move that can jump.
///
/// # Guarantees
///
/// A king of the side to move that is not in the result has no capture.
pub fn jumping_kings(position: &DPos) -> DSet
    ensures { (n : ℕ) (q : DPiece) → own_at position.now n ≡ Some q → q.king ≡ true
        → set.contains result n ≡ false → greatest_at position.now n ≡ 0 }
{
    let own = position.squares_of(position.turn());
    let mut able = own.intersection(position.kings());
    let mut rest = able;
    if rest.is_empty() {
        return able;
    }
    let sight = look(position);
    while let Some(square) = rest.pop() {
        if !king_can_jump(&sight, square) {
            able = able.without(square);
        }
    }
    able
}
