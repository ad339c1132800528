//! The entering-king declaration.
ghost use Rattle.std.specs.Prelude.{◌≡◌, ◌↔◌, ◌+◌, ◌<◌, ◌≤◌, ◌*◌, IsTrue, Some, if◌then◌else◌};
ghost use Rattle.shogi_moves.specs.Declaring.{in_camp, worth, has_entered, cell_points, entered, camp_points};
ghost use Rattle.shogi_moves.specs.Declaring.{hand_points, points_needed};
ghost use Rattle.shogi_moves.specs.internal.Declaring.{has_enough, king_entered};
ghost use Rattle.shogi_moves.specs.Declaring.{CanDeclare};
ghost use Rattle.shogi_moves.specs.internal.Declaring.{can_declare};

use crate::kings::{is_king_attacked, kings_of};
use crate::zones::{far_rank, is_king};
use squares::{Hand, Kind, SBoard, SPiece, SPos, Side, Ssq};

/// The number of pieces, besides the king, that must be in the enemy's camp.
const PIECES_NEEDED: u32 = 10;

fn in_camp(side: Side, square: Ssq) -> bool
    ensures { result ≡ in_camp side square }
{
    far_rank(side, square) <= 3
}

// The points of a piece.
fn worth(kind: Kind) -> u32
    ensures value { result ≡ worth kind }
    ensures range { result ≤ 5 }
{
    match kind {
        Kind::Rook | Kind::Bishop => 5,
        _ => 1,
    }
}

// Whether a piece of the side, other than its king, is in the enemy's camp.
fn has_entered(side: Side, square: Ssq, piece: SPiece) -> bool
    ensures { result ≡ has_entered side square (Some piece) }
{
    piece.side == side && !is_king(piece.role) && in_camp(side, square)
}

// The number and the points of the pieces in the enemy's camp.
#[derive(Clone, Copy)]
struct Camp {
    pieces: u32,
    points: u32,
}

impl Camp {
    // Adds one square's piece, if it counts.
    fn with(self, side: Side, square: Ssq, cell: Option<SPiece>) -> Camp
        requires pieces { self.pieces < 1000 }
        requires points { self.points < 10000 }
        ensures pieces { result.pieces ≡ self.pieces + (if has_entered side square cell then 1 else 0) }
        ensures points { result.points ≡ self.points + cell_points side square cell }
        ensures within { self.points ≤ 5 * self.pieces → result.points ≤ 5 * result.pieces }
    {
        match cell {
            Some(piece) if has_entered(side, square, piece) => Camp {
                pieces: self.pieces + 1,
                points: self.points + worth(piece.role.kind()),
            },
            _ => self,
        }
    }
}

// Counts the pieces of the side in the enemy's camp.
fn entered(board: &SBoard, side: Side) -> Camp
    ensures pieces { result.pieces ≡ entered board.now side }
    ensures points { result.points ≡ camp_points board.now side }
    ensures within { result.points ≤ 405 }
{
    let mut rest = board.squares_of_side(side);
    let mut found = Camp {
        pieces: 0,
        points: 0,
    };
    while let Some(number) = rest.pop() {
        let square = Ssq::of_number(number);
        found = found.with(side, square, board.piece_at(square));
    }
    found
}

// The points of a hand.
fn hand_points(hand: Hand) -> u32
    ensures { result ≡ hand_points hand }
{
    let great = u32::from(hand.rook) + u32::from(hand.bishop);
    let small = u32::from(hand.gold)
        + u32::from(hand.silver)
        + u32::from(hand.knight)
        + u32::from(hand.lance)
        + u32::from(hand.pawn);
    5 * great + small
}

fn points_needed(side: Side) -> u32
    ensures { result ≡ points_needed side }
{
    match side {
        Side::First => 28,
        Side::Second => 27,
    }
}

// Whether the side's king is in the enemy's camp.
fn king_entered(board: &SBoard, side: Side) -> bool
    ensures { result ≡ king_entered board.now side }
{
    let mut rest = kings_of(board, side);
    while let Some(number) = rest.pop() {
        if in_camp(side, Ssq::of_number(number)) {
            return true;
        }
    }
    false
}

// Whether the side has enough pieces in the enemy's camp and enough points with its hand.
fn has_enough(board: &SBoard, hand: Hand, side: Side) -> bool
    ensures { result ≡ has_enough board.now hand side }
{
    let found = entered(board, side);
    found.pieces >= PIECES_NEEDED && found.points + hand_points(hand) >= points_needed(side)
}

// The test as a function of the position.
#[tactic(auto, unfolding(crate::specs::internal::Declaring::can_declare))]
fn declares(position: &SPos) -> bool
    ensures { result ≡ can_declare position.now }
{
    let board = position.board();
    let side = position.turn();
    king_entered(board, side)
        && !is_king_attacked(board, side)
        && has_enough(board, position.hands().hand(side), side)
}

/// Whether the side to move may make the entering-king declaration, which wins the game.
///
/// Its king is not in check and is in the three farthest ranks with at least ten other own pieces. These and the hand
/// are worth at least 28 points for First, or 27 for Second. A rook and a bishop, promoted or not, count five points,
/// any other piece one. Allocates nothing.
pub fn can_declare(position: &SPos) -> bool
    ensures rule { IsTrue result ↔ CanDeclare position.now }

    // The result as a function of the position.
    ensures value { result ≡ can_declare position.now }
{
    declares(position)
}
