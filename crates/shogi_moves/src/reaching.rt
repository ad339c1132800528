//! The squares that a piece attacks.
ghost use Rattle.std.specs.Prelude.{◌≡◌, ◌||◌, ℕ};
ghost use Rattle.std.specs.FinSet as set;
ghost use Rattle.shogi_moves.specs.Reach.{line, range};
ghost use Rattle.shogi_moves.specs.internal.Search.{comes_to, piece_reaches, side_reaches};

use crate::heading::{MoveDirection, range, step};
use masks::Bitboard81;
use squares::{SBoard, SPiece, Side, Ssq};

// A way along a heading, over at most `distance` squares, all but the last of them empty.
#[derive(Clone, Copy)]
struct Way {
    side: Side,
    heading: MoveDirection,
    distance: u8,
    from: Ssq,
}

impl Way {
    // The way of the piece on `from` along a heading.
    fn of_piece(piece: SPiece, heading: MoveDirection, from: Ssq) -> Way
        ensures { result ≡ record {
          side = piece.side;
          heading = heading;
          distance = range piece.role heading;
          from = from;
        } }
    {
        Way {
            side: piece.side,
            heading,
            distance: range(piece.role, heading),
            from,
        }
    }
}

// Whether a way reaches `to`.
fn comes_to(board: &SBoard, way: Way, to: Ssq) -> bool
    ensures { result ≡ comes_to board.now to (line way.distance way.side way.heading way.from) }
{
    let mut at = way.from;
    for _ in 0..way.distance {
        match step(way.side, way.heading, at) {
            None => return false,
            Some(next) => {
                if next == to {
                    return true;
                }
                if board.piece_at(next).is_some() {
                    return false;
                }
                at = next;
            }
        }
    }
    false
}

/// Whether the piece on `from` attacks `to`.
#[tactic(auto, unfolding(crate::specs::internal::Search::piece_reaches))]
pub fn piece_reaches(board: &SBoard, piece: SPiece, from: Ssq, to: Ssq) -> bool
    ensures { result ≡ piece_reaches board.now piece from to }
{
    MoveDirection::ALL.iter().any(|heading| comes_to(
        board,
        Way::of_piece(piece, *heading, from),
        to,
    ))
}

/// Whether `from` holds a piece of the side that attacks `to`.
#[tactic(auto, unfolding(crate::specs::internal::Search::side_reaches))]
pub fn side_reaches(board: &SBoard, side: Side, to: Ssq, from: Ssq) -> bool
    ensures { result ≡ side_reaches board.now side to from }
{
    match board.piece_at(from) {
        None => false,
        Some(piece) => piece.side == side && piece_reaches(board, piece, from, to),
    }
}

// Adds to `squares` the squares that a way reaches.
fn with_line(board: &SBoard, way: Way, squares: Bitboard81) -> Bitboard81
    ensures { (to : ℕ) → set.contains result to
        ≡ (set.contains squares to || comes_to board.now to (line way.distance way.side way.heading way.from)) }
{
    let mut found = squares;
    let mut at = way.from;
    for _ in 0..way.distance {
        match step(way.side, way.heading, at) {
            None => return found,
            Some(next) => {
                found = found.with(next.number());
                if board.piece_at(next).is_some() {
                    return found;
                }
                at = next;
            }
        }
    }
    found
}

/// The squares that the piece on `from` attacks.
pub fn attacks_from(board: &SBoard, piece: SPiece, from: Ssq) -> Bitboard81
    ensures { (to : ℕ) → set.contains result to ≡ piece_reaches board.now piece from to }
{
    let mut found = Bitboard81::new();
    for heading in &MoveDirection::ALL {
        found = with_line(board, Way::of_piece(piece, *heading, from), found);
    }
    found
}
