//! The length of the longest capture of a piece.
ghost use Rattle.std.specs.Prelude.{◌≡◌, ◌≤◌};
ghost use Rattle.draughts_moves.specs.Capture.{without};
ghost use Rattle.draughts_moves.specs.Search.{greatest};

use crate::first_jumps::can_jump;
use crate::jumps::jumps_from;
use crate::mover::Mover;
use squares::DPos;

/// The greatest number of further jumps that a piece can make from its present square.
pub fn longest(position: &DPos, mover: &Mover) -> usize
    ensures value { result ≡ greatest (without position.now.board mover.now.origin)
        mover.now.piece mover.now.taken mover.now.at }
    ensures few { result ≤ 50 }
{
    if !can_jump(position, mover) {
        return 0;
    }
    let mut best = 0;
    let jumps = jumps_from(position, mover);
    for (over, to) in jumps.items() {
        let next = mover.after_jump(*over, *to);
        let more = longest(position, &next) + 1;
        best = best.max(more);
    }
    best
}
