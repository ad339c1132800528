//! King moves without a capture.
ghost use Rattle.std.specs.Prelude.{◌≡◌};
ghost use Rattle.draughts_draws.specs.Ends.{is_king, is_king_move};

use squares::{DMove, DPiece, DPos};

fn is_king(piece: Option<DPiece>) -> bool
    ensures { result ≡ is_king piece }
{
    match piece {
        Some(piece) => piece.king,
        None => false,
    }
}

/// Whether the move is a king move without a capture.
pub(crate) fn is_king_move(position: &DPos, played: &DMove) -> bool
    ensures { result ≡ is_king_move position.now played.now }
{
    played.taken.len() == 0 && is_king(position.piece_at(played.from))
}
