//! Pieces that are not pinned: they can leave their squares without exposing a king.
ghost use Rattle.std.specs.Prelude.{◌≡◌, ℕ, true, false, Some};
ghost use Rattle.std.specs.FinMap as map;
ghost use Rattle.std.specs.FinSet as set;
ghost use Rattle.shogi_moves.specs.internal.Facing.{seen};
ghost use Rattle.shogi_moves.specs.internal.Pins.{is_unpinned, ExposesAlone};
ghost use Rattle.shogi_moves.specs.internal.Search.{king_attacked};

use crate::attacks::{farthest, is_faced_from};
use crate::heading::{MoveDirection, step};
use crate::kings::kings_of;
use masks::Bitboard81;
use squares::{SBoard, Side, Ssq};

// The first piece along a heading, if an enemy behind it would attack the square without it.
fn pinned_along(board: &SBoard, side: Side, heading: MoveDirection, square: Ssq) -> Option<Ssq>
    ensures { ExposesAlone board.now side square heading result }
{
    let mut at = square;
    for distance in 0..farthest(heading) {
        match step(side, heading, at) {
            None => return None,
            Some(next) => match board.piece_at(next) {
                Some(_) => {
                    if is_faced_from(board, side, heading, distance + 1, next) {
                        return Some(next);
                    }
                    return None;
                }
                None => at = next,
            },
        }
    }
    None
}

// The set without the square, if there is one.
fn without_square(squares: Bitboard81, square: Option<Ssq>) -> Bitboard81
    ensures kept { (n : ℕ) → set.contains result n ≡ true → set.contains squares n ≡ true }
    ensures removed { (n : ℕ) → set.contains result n ≡ true → square ≡ Some n → ⊥ }
{
    match square {
        None => squares,
        Some(there) => squares.without(there.number()),
    }
}

// The squares of a set whose pieces can leave them without exposing a square that no enemy attacks.
fn without_pinned(board: &SBoard, side: Side, square: Ssq, squares: Bitboard81) -> Bitboard81
    requires { seen board.now side square ≡ false }
    ensures kept { (n : ℕ) → set.contains result n ≡ true → set.contains squares n ≡ true }
    ensures safe { (n : ℕ) → set.contains result n ≡ true → seen (map.remove board.now n) side square ≡ false }
{
    let mut free = squares;
    for heading in &MoveDirection::ALL {
        free = without_square(free, pinned_along(board, side, *heading, square));
    }
    free
}

/// The pieces of a side that can leave their squares without exposing a king; none if the side is in check.
///
/// Kings are not among them. `checked` says whether the side is in check.
pub fn unpinned_pieces(board: &SBoard, side: Side, checked: bool) -> Bitboard81
    requires { checked ≡ king_attacked board.now side }
    ensures { (n : ℕ) → set.contains result n ≡ true → is_unpinned board.now side n ≡ true }
{
    if checked {
        return Bitboard81::new();
    }
    let kings = kings_of(board, side);
    let own = board.squares_of_side(side);
    let mut free = own.difference(kings);
    let mut rest = kings;
    while let Some(king) = rest.pop() {
        free = without_pinned(board, side, Ssq::of_number(king), free);
    }
    free
}
