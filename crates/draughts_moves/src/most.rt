//! The number of pieces that the longest capture takes.
ghost use Rattle.std.specs.Prelude.{◌≡◌, ◌≤◌, ℕ, false};
ghost use Rattle.std.specs.FinSet as set;
ghost use Rattle.draughts_moves.specs.internal.Capture.{IsMost};
ghost use Rattle.draughts_moves.specs.Search.{own_at, greatest_at};

use crate::exposure::jumping_kings;
use crate::longest::longest;
use crate::mover::Mover;
use crate::neighbors::jump_origins;
use squares::{DPiece, DPos, DSet, Dsq};

/// The piece on a square, if it belongs to the side to move.
pub fn own_at(position: &DPos, square: Dsq) -> Option<DPiece>
    ensures { result ≡ own_at position.now square }
{
    match position.piece_at(square) {
        Some(piece) => {
            if piece.side == position.turn() {
                return Some(piece);
            }
            None
        }
        None => None,
    }
}

// The pieces of the side to move that may capture: kings that can jump, and pieces next to an enemy with an empty
// square behind it.
pub(crate) fn may_take(position: &DPos) -> DSet
    ensures { (n : ℕ) → set.contains result n ≡ false → greatest_at position.now n ≡ 0 }
{
    let own = position.squares_of(position.turn());
    let enemies = position.squares_of(position.turn().other());
    let near = jump_origins(enemies, position.empty_squares());
    let men = own.intersection(near);
    men.union(jumping_kings(position))
}

// The greatest number of jumps of the piece on a square.
#[tactic(auto, unfolding(crate::specs::Search::greatest_at))]
fn greatest_at(position: &DPos, square: Dsq) -> usize
    ensures value { result ≡ greatest_at position.now square }
    ensures few { result ≤ 50 }
{
    match own_at(position, square) {
        Some(piece) => { longest(position, &Mover::new(piece, square)) }
        None => 0,
    }
}

/// The greatest number of pieces that a capture takes, or 0 if there is no capture.
pub fn most(position: &DPos) -> usize
    ensures most { IsMost position.now result }
    ensures few { result ≤ 50 }
{
    let mut most = 0;
    let mut able = may_take(position);
    while let Some(square) = able.pop() {
        most = most.max(greatest_at(position, square));
    }
    most
}
