//! The squares of the kings, and whether a king is attacked.
ghost use Rattle.std.specs.Prelude.{◌≡◌};
ghost use Rattle.shogi_moves.specs.internal.Kings.{AreKings};
ghost use Rattle.shogi_moves.specs.internal.Search.{king_attacked};

use crate::attacks::is_attacked;
use masks::Bitboard81;
use squares::{Role, SBoard, SPiece, Side, Ssq};

// The squares of the side's kings.
pub(crate) fn kings_of(board: &SBoard, side: Side) -> Bitboard81
    ensures { AreKings board.now side result }
{
    board.squares_of(SPiece {
        side,
        role: Role::King,
    })
}

/// Whether a king of the side is attacked.
pub fn is_king_attacked(board: &SBoard, side: Side) -> bool
    ensures { result ≡ king_attacked board.now side }
{
    let mut rest = kings_of(board, side);
    while let Some(square) = rest.pop() {
        if is_attacked(board, side, Ssq::of_number(square)) {
            return true;
        }
    }
    false
}
