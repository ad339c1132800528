//! Attacked squares and check.
ghost use Rattle.std.specs.Prelude.{◌≡◌, ◌↔◌, ◌&&◌, ◌-◌, not, nat_lt, IsTrue};
ghost use Rattle.squares.specs.Sides.{same_side};
ghost use Rattle.shogi_moves.specs.Reach.{Attacked, KingAttacked, line, range};
ghost use Rattle.shogi_moves.specs.internal.Facing.{farthest, facing, faced, faced_along, seen};
ghost use Rattle.shogi_moves.specs.internal.Search.{attacked};

use crate::heading::{MoveDirection, range, step};
use crate::kings::is_king_attacked;
use squares::{SBoard, SPiece, SPos, Side, Ssq};

/// Whether a piece of the opponent of `side` attacks a square.
///
/// Allocates nothing.
pub fn attacked(position: &SPos, side: Side, square: Ssq) -> bool
    ensures { IsTrue result ↔ Attacked position.now.board side square }
{
    is_attacked(position.board(), side, square)
}

/// Whether the king of the side to move is in check.
///
/// Allocates nothing.
pub fn in_check(position: &SPos) -> bool
    ensures { IsTrue result ↔ KingAttacked position.now.board position.now.turn }
{
    is_king_attacked(position.board(), position.turn())
}

/// The greatest distance in squares at which a piece can attack along a heading.
pub fn farthest(heading: MoveDirection) -> u8
    ensures { result ≡ farthest heading }
{
    match heading {
        MoveDirection::JumpLeft | MoveDirection::JumpRight => 1,
        _ => 8,
    }
}

// The heading by which an enemy moves toward the square from which `heading` leads to it.
fn facing(heading: MoveDirection) -> MoveDirection
    ensures { result ≡ facing heading }
{
    match heading {
        MoveDirection::Forward => MoveDirection::Forward,
        MoveDirection::ForwardLeft => MoveDirection::ForwardRight,
        MoveDirection::ForwardRight => MoveDirection::ForwardLeft,
        MoveDirection::Left => MoveDirection::Right,
        MoveDirection::Right => MoveDirection::Left,
        MoveDirection::Back => MoveDirection::Back,
        MoveDirection::BackLeft => MoveDirection::BackRight,
        MoveDirection::BackRight => MoveDirection::BackLeft,
        MoveDirection::JumpLeft => MoveDirection::JumpRight,
        MoveDirection::JumpRight => MoveDirection::JumpLeft,
    }
}

// Whether the piece, with `distance` empty squares before it, is an enemy whose range reaches the square.
fn comes_here(piece: SPiece, side: Side, distance: u8, heading: MoveDirection) -> bool
    ensures { result ≡ (not (same_side piece.side side)
        && nat_lt distance (range piece.role (facing heading))) }
{
    !(piece.side == side) && distance < range(piece.role, facing(heading))
}

/// Whether the first piece beyond `from` along a heading is an enemy whose range exceeds the number of empty squares
/// before it by more than `passed`.
pub fn is_faced_from(
    board: &SBoard,
    side: Side,
    heading: MoveDirection,
    passed: u8,
    from: Ssq,
) -> bool
    ensures { result ≡ faced board.now side heading passed
        (line (farthest heading - passed) side heading from) }
{
    let mut at = from;
    for distance in passed..farthest(heading) {
        match step(side, heading, at) {
            None => return false,
            Some(next) => match board.piece_at(next) {
                Some(piece) => return comes_here(piece, side, distance, heading),
                None => at = next,
            },
        }
    }
    false
}

// Whether the first piece along a heading is an enemy that attacks the square.
fn is_faced(board: &SBoard, side: Side, heading: MoveDirection, square: Ssq) -> bool
    ensures { result ≡ faced_along board.now side square heading }
{
    is_faced_from(board, side, heading, 0, square)
}

// Whether an enemy attacks the square, found by looking outward from it.
#[tactic(auto, unfolding(crate::specs::internal::Facing::seen))]
fn is_seen(board: &SBoard, side: Side, square: Ssq) -> bool
    ensures { result ≡ seen board.now side square }
{
    MoveDirection::ALL
        .iter()
        .any(|heading| is_faced(board, side, *heading, square))
}

/// Whether a piece of the opponent of `side` attacks a square.
pub fn is_attacked(board: &SBoard, side: Side, square: Ssq) -> bool
    ensures { result ≡ attacked board.now side square }
{
    is_seen(board, side, square)
}
