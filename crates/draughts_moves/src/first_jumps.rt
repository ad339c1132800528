//! Whether a piece can make a jump.
ghost use Rattle.std.specs.Prelude.{◌≡◌, length, nat_lt};
ghost use Rattle.draughts_moves.specs.Capture.{without, Cells};
ghost use Rattle.squares.specs.declared.draughts.piece.DPiece.{DPiece};
ghost use Rattle.squares.specs.DraughtsSets.{Squares};
ghost use Rattle.squares.specs.DraughtsGeometry.{ray};
ghost use Rattle.draughts_moves.specs.Search.{line_jumps, king_jumps, man_jumps, jumps};
ghost use Rattle.draughts_moves.specs.internal.Search.{takes, Meets};

use crate::jumps::{Met, look};
use crate::mover::Mover;
use squares::{DPos, Direction, Dsq};

// Whether the piece can capture the enemy on `over` by a jump in a direction.
fn takes(met: &Met, over: Dsq, toward: Direction) -> bool
    ensures { (b : Cells) (p : DPiece) (t : Squares) → Meets b p t met.now.prey met.now.pieces
        → result ≡ takes b p t toward over }
{
    if !met.prey.contains(over) {
        return false;
    }
    match over.step(toward) {
        Some(next) => !met.pieces.contains(next),
        None => false,
    }
}

// Whether a man can jump in a direction.
fn man_can_jump(met: &Met, at: Dsq, toward: Direction) -> bool
    ensures { (b : Cells) (p : DPiece) (t : Squares) → Meets b p t met.now.prey met.now.pieces
        → result ≡ nat_lt 0 (length (man_jumps b p t (ray toward at))) }
{
    match at.step(toward) {
        Some(over) => takes(met, over, toward),
        None => false,
    }
}

// Whether a king can jump in a direction, that is, over the first piece in it.
fn king_can_jump(met: &Met, at: Dsq, toward: Direction) -> bool
    ensures { (b : Cells) (p : DPiece) (t : Squares) → Meets b p t met.now.prey met.now.pieces
        → result ≡ nat_lt 0 (length (king_jumps b p t (ray toward at))) }
{
    match at.first_on(toward, met.pieces) {
        Some(over) => takes(met, over, toward),
        None => false,
    }
}

// Whether the piece can jump in a direction.
fn can_jump_along(met: &Met, king: bool, at: Dsq, toward: Direction) -> bool
    ensures { (b : Cells) (p : DPiece) (t : Squares) → Meets b p t met.now.prey met.now.pieces
        → p.king ≡ king → result ≡ nat_lt 0 (length (line_jumps b p t (ray toward at))) }
{
    if king {
        return king_can_jump(met, at, toward);
    }
    man_can_jump(met, at, toward)
}

/// Whether a piece can make a jump, at the start of a capture or in the middle of it.
pub fn can_jump(position: &DPos, mover: &Mover) -> bool
    ensures { result ≡ nat_lt 0 (length (jumps (without position.now.board mover.now.origin)
        mover.now.piece mover.now.taken mover.now.at)) }
{
    let met = look(position, mover);
    let king = mover.piece.king;
    if can_jump_along(&met, king, mover.at, Direction::UpLeft) {
        return true;
    }
    if can_jump_along(&met, king, mover.at, Direction::UpRight) {
        return true;
    }
    if can_jump_along(&met, king, mover.at, Direction::DownLeft) {
        return true;
    }
    can_jump_along(&met, king, mover.at, Direction::DownRight)
}
