//! The board and the hands of the starting position.

ghost use Rattle.std.specs.Prelude.{◌≡◌, ◌≤◌, ℕ, None, nat_eq, if◌then◌else◌};
ghost use Rattle.std.specs.FinMap as finite_map;
ghost use Rattle.squares.specs.ShogiOpening.{back_role, second_role, army_role, opening_piece, opening_cell, opening};

use crate::shogi::board::SBoard;
use crate::shogi::hand::{Hand, Hands};
use crate::shogi::piece::{Role, SPiece};
use crate::shogi::square::Ssq;
use crate::sides::Side;

// The piece on a file of First's back rank.
fn back_role(file: u8) -> Role
    ensures { result ≡ back_role file }
{
    match file {
        5 => Role::King,
        4 | 6 => Role::Gold,
        3 | 7 => Role::Silver,
        2 | 8 => Role::Knight,
        _ => Role::Lance,
    }
}

// The piece on a file of First's second rank.
fn second_role(file: u8) -> Option<Role>
    ensures { result ≡ second_role file }
{
    match file {
        2 => Some(Role::Rook),
        8 => Some(Role::Bishop),
        _ => None,
    }
}

// First's piece on a file, `row` ranks from First's edge (1 is the back rank).
fn army_role(file: u8, row: u8) -> Option<Role>
    ensures { result ≡ army_role file row }
{
    match row {
        1 => Some(back_role(file)),
        2 => second_role(file),
        3 => Some(Role::Pawn),
        _ => None,
    }
}

// The piece on a file and a rank in the starting position.
fn opening_piece(file: u8, rank: u8) -> Option<SPiece>
    requires file { file ≤ 9 }
    requires rank { rank ≤ 9 }
    ensures { result ≡ opening_piece file rank }
{
    let (side, role) = if rank <= 3 {
        (Side::Second, army_role(10 - file, rank))
    } else {
        (Side::First, army_role(file, 10 - rank))
    };
    match role {
        None => None,
        Some(role) => Some(SPiece { side, role }),
    }
}

// The piece on a square in the starting position.
fn opening_cell(square: Ssq) -> Option<SPiece>
    ensures { result ≡ opening_cell square }
{
    opening_piece(square.file(), square.rank())
}

// Fills an empty square as in the starting position.
fn set_up(board: &mut SBoard, square: Ssq)
    requires { finite_map.get board.old square ≡ None }
    ensures { (q : ℕ) → finite_map.get board.new q ≡
        (if nat_eq q square then opening_cell square else finite_map.get board.old q) }
{
    match opening_cell(square) {
        None => {}
        Some(piece) => board.put(square, piece),
    }
}

/// The board of the starting position.
pub(crate) fn opening_board() -> SBoard
    ensures { result ≡ opening.board }
{
    let mut board = SBoard::empty();
    for number in 0..81 {
        set_up(&mut board, Ssq::of_number(number));
    }
    board
}

/// The hands of the starting position, which are empty.
pub(crate) fn no_hands() -> Hands
    ensures { result ≡ opening.hands }
{
    let hand = Hand {
        rook: 0,
        bishop: 0,
        gold: 0,
        silver: 0,
        knight: 0,
        lance: 0,
        pawn: 0,
    };
    Hands {
        first: hand,
        second: hand,
    }
}
