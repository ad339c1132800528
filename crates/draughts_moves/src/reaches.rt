//! Whether a piece can complete a given capture.
ghost use Rattle.std.specs.Prelude.{◌↔◌, IsTrue};
ghost use Rattle.draughts_moves.specs.Capture.{without};
ghost use Rattle.draughts_moves.specs.internal.Capture.{Reaches};

use crate::jumps::jumps_from;
use crate::mover::Mover;
use squares::{DMove, DPos};

/// Whether `left` more jumps can end on the target square of the move with exactly its captured pieces.
pub fn reaches(position: &DPos, mover: &Mover, left: usize, played: &DMove) -> bool
    ensures { IsTrue result
        ↔ Reaches (without position.now.board mover.now.origin) mover.now.piece left
        mover.now.taken mover.now.at played.now.taken played.now.to }
{
    if left == 0 {
        return mover.at == played.to && mover.taken == played.taken;
    }
    let jumps = jumps_from(position, mover);
    for (over, to) in jumps.items() {
        let next = mover.after_jump(*over, *to);
        if reaches(position, &next, left - 1, played) {
            return true;
        }
    }
    false
}
