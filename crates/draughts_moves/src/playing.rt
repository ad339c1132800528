//! The position after a move.
ghost use Rattle.std.specs.Prelude.{◌≡◌};
ghost use Rattle.draughts_moves.specs.Legal.{Legal, far_row, crowned, play};

use squares::{DMove, DPiece, DPos, Dsq, Side};

/// The position after a legal move.
///
/// Moves the piece, removes the captured pieces, promotes a man that ends on its last row, and passes the turn.
pub fn play(position: &DPos, played: &DMove) -> DPos
    requires { Legal position.now played.now }
    ensures { result ≡ play position.now played.now }
{
    let mut next = *position;
    match position.piece_at(played.from) {
        Some(piece) => {
            next.clear(played.from);
            next.clear_all(played.taken);
            next.put(played.to, crowned(piece, played.to));
            next.pass_turn();
            next
        }
        None => next,
    }
}

// The last row of a side, on which its men promote.
fn far_row(side: Side) -> u8
    ensures { result ≡ far_row side }
{
    match side {
        Side::First => 0,
        Side::Second => 9,
    }
}

// The piece after its move: a man on its last row becomes a king.
fn crowned(piece: DPiece, to: Dsq) -> DPiece
    ensures { result ≡ crowned piece to }
{
    DPiece {
        side: piece.side,
        king: piece.king || to.row() == far_row(piece.side),
    }
}
