//! Pseudo-legal moves: the rules except those about attacked kings and mate by a dropped pawn.
ghost use Rattle.std.specs.Prelude.{◌≡◌, ◌&&◌, ◌||◌, ◌==◌, ℕ, not};
ghost use Rattle.std.specs.FinMap as map;
ghost use Rattle.std.specs.FinSet as set;
ghost use Rattle.squares.specs.ShogiGeometry.{file_of};
ghost use Rattle.squares.specs.Sides.{same_side};
ghost use Rattle.shogi_moves.specs.Rules.{may_land, may_promote};
ghost use Rattle.shogi_moves.specs.internal.Search.{piece_reaches};
ghost use Rattle.shogi_moves.specs.internal.Layouts.{position_of};
ghost use Rattle.shogi_moves.specs.internal.Computed.{goes, is_free, is_movement, drops_unheld, stuck_after};
ghost use Rattle.shogi_moves.specs.internal.Computed.{fails_to_promote};
ghost use Rattle.shogi_moves.specs.internal.Computed.{drops_dead};
ghost use Rattle.shogi_moves.specs.internal.Computed.{holds_pawn, pawn_on_file, drops_pawn, drops_second_pawn};
ghost use Rattle.shogi_moves.specs.internal.Computed.{is_pseudo};

use crate::layout::{Layout, dropped_role};
use crate::reaching::piece_reaches;
use crate::zones::{is_stuck, may_land, may_promote};
use masks::Bitboard81;
use squares::{HandKind, Role, SBoard, SMove, SPiece, Side, Ssq};

// Whether the piece on `from` belongs to the side to move and can step to `to`.
fn piece_goes(layout: &Layout, piece: SPiece, from: Ssq, to: Ssq, promote: bool) -> bool
    ensures { result ≡ (same_side piece.side layout.now.turn
        && may_land layout.now.turn (map.get layout.now.board to)
        && (not promote || may_promote piece from to) && piece_reaches layout.now.board piece from to) }
{
    piece.side == layout.turn
        && may_land(layout.turn, layout.board.piece_at(to))
        && (!promote || may_promote(piece, from, to))
        && piece_reaches(&layout.board, piece, from, to)
}

// Whether the piece on `from` can step to `to`.
#[tactic(auto, unfolding(crate::specs::internal::Computed::goes))]
fn goes(layout: &Layout, from: Ssq, to: Ssq, promote: bool) -> bool
    ensures { result ≡ goes (position_of layout.now) from to promote }
{
    match layout.board.piece_at(from) {
        None => false,
        Some(piece) => piece_goes(layout, piece, from, to, promote),
    }
}

// Whether the square is empty.
fn is_free(board: &SBoard, square: Ssq) -> bool
    ensures { result ≡ is_free board.now square }
{
    match board.piece_at(square) {
        None => true,
        Some(_) => false,
    }
}

/// Whether the move is a possible step of a piece, or a drop on an empty square.
pub fn is_movement(layout: &Layout, played: &SMove) -> bool
    ensures { result ≡ is_movement (position_of layout.now) played.now }
{
    match played {
        SMove::Step { from, to, promote } => goes(layout, *from, *to, *promote),
        SMove::Drop { kind: _, to } => is_free(&layout.board, *to),
    }
}

/// Whether the move drops a piece that the hand does not hold.
pub fn drops_unheld(layout: &Layout, played: &SMove) -> bool
    ensures { result ≡ drops_unheld (position_of layout.now) played.now }
{
    match played {
        SMove::Step { .. } => false,
        SMove::Drop { kind, to: _ } => layout.count_in_hand(*kind) == 0,
    }
}

// Whether the piece on `from`, unpromoted, could never move from `to`.
#[tactic(auto, unfolding(crate::specs::internal::Computed::stuck_after))]
fn stuck_after(layout: &Layout, from: Ssq, to: Ssq) -> bool
    ensures { result ≡ stuck_after (position_of layout.now) from to }
{
    match layout.board.piece_at(from) {
        None => false,
        Some(piece) => is_stuck(piece.side, piece.role, to),
    }
}

/// Whether the move is a step that must promote and does not.
pub fn fails_to_promote(layout: &Layout, played: &SMove) -> bool
    ensures { result ≡ fails_to_promote (position_of layout.now) played.now }
{
    match played {
        SMove::Step { from, to, promote } => !*promote && stuck_after(layout, *from, *to),
        SMove::Drop { .. } => false,
    }
}

/// Whether the move drops a piece on a square from which it could never move.
pub fn drops_dead(layout: &Layout, played: &SMove) -> bool
    ensures { result ≡ drops_dead (position_of layout.now) played.now }
{
    match played {
        SMove::Step { .. } => false,
        SMove::Drop { kind, to } => is_stuck(layout.turn, dropped_role(*kind), *to),
    }
}

// The squares of the side's unpromoted pawns.
fn pawns_of(board: &SBoard, side: Side) -> Bitboard81
    ensures { (q : ℕ) → set.contains result q ≡ holds_pawn side (map.get board.now q) }
{
    board.squares_of(SPiece {
        side,
        role: Role::Pawn,
    })
}

// Whether both squares are on the same file.
fn on_one_file(there: Ssq, square: Ssq) -> bool
    ensures { result ≡ (file_of there == file_of square) }
{
    there.file() == square.file()
}

// Whether the file of the square has an unpromoted pawn of the side.
fn pawn_on_file(board: &SBoard, side: Side, square: Ssq) -> bool
    ensures { result ≡ pawn_on_file board.now side square }
{
    let mut rest = pawns_of(board, side);
    while let Some(there) = rest.pop() {
        if on_one_file(Ssq::of_number(there), square) {
            return true;
        }
    }
    false
}

/// Whether the move drops a pawn.
pub fn drops_pawn(played: &SMove) -> bool
    ensures { result ≡ drops_pawn played.now }
{
    match played {
        SMove::Step { .. } => false,
        SMove::Drop { kind, to: _ } => match kind {
            HandKind::Pawn => true,
            _ => false,
        },
    }
}

/// Whether the move drops a pawn on a file that already has an unpromoted pawn of the side.
#[tactic(auto, unfolding(crate::specs::internal::Computed::drops_second_pawn))]
pub fn drops_second_pawn(layout: &Layout, played: &SMove) -> bool
    ensures { result ≡ drops_second_pawn (position_of layout.now) played.now }
{
    if !drops_pawn(played) {
        return false;
    }
    match played {
        SMove::Step { .. } => false,
        SMove::Drop { kind: _, to } => pawn_on_file(&layout.board, layout.turn, *to),
    }
}

/// Whether the move is pseudo-legal: legal except for attacks on kings and mate by a dropped pawn.
#[tactic(auto, unfolding(crate::specs::internal::Computed::is_pseudo))]
pub fn is_pseudo(layout: &Layout, played: &SMove) -> bool
    ensures { result ≡ is_pseudo (position_of layout.now) played.now }
{
    is_movement(layout, played)
        && !drops_unheld(layout, played)
        && !fails_to_promote(layout, played)
        && !drops_dead(layout, played)
        && !drops_second_pawn(layout, played)
}
