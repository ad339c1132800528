//! The shogi board.

ghost use Rattle.std.specs.Prelude.{◌≡◌, ◌≤◌, ℕ, None, count_by, length};
ghost use Rattle.std.specs.FinMap as map;
ghost use Rattle.std.specs.FinSet as set;
ghost use Rattle.squares.specs.internal.ShogiOrder.{board_cmp};
ghost use Rattle.squares.specs.internal.ShogiSets.{count_on, holds_kind, holds_king};
ghost use Rattle.squares.specs.internal.ShogiWords.{is_side, holds};

use crate::shogi::piece::{HandKind, Role, SPiece};
use crate::shogi::square::Ssq;
use crate::shogi::words::{add_to, role_place, side_place, squares_at, take_from};
use crate::sides::Side;
use masks::Bitboard81;
use std::cmp::Ordering;
use std::marker::Model;

/// A shogi board; contracts see it as a finite map from squares to pieces.
///
/// Besides the cells it keeps a bitboard for each side and for each role.
#[derive(Drop)]
pub struct SBoard {
    cells: [Option<SPiece>; 81],
    sides: [Bitboard81; 2],
    roles: [Bitboard81; 14],
}

impl Model for SBoard {
    ghost use Rattle.std.specs.Coded.{coded_ℕ};
    ghost use Rattle.std.specs.FinMap as finite_map;
    ghost use Rattle.squares.specs.contracts.shogi.piece.SPiece as piece_type;
    ghost use Rattle.squares.specs.ShogiBoard.{ShogiBoard, shogi_board_of};
    ghost use Rattle.squares.specs.internal.ShogiWords.{KeepsBoard};

    ghost Value = { ShogiBoard };

    ghost coded = { finite_map.code coded_ℕ piece_type.the_row.coded };

    ghost view = { λ b. shogi_board_of b.cells };

    ghost invariant = { λ b. KeepsBoard b.cells b.sides b.roles };
}

impl SBoard {
    /// The empty board.
    pub fn empty() -> SBoard
        ensures { result ≡ map.empty }
    {
        SBoard {
            cells: [None; 81],
            sides: [Bitboard81::new(); 2],
            roles: [Bitboard81::new(); 14],
        }
    }

    /// The piece on a square, or `None` if the square is empty.
    pub fn piece_at(&self, square: Ssq) -> Option<SPiece>
        ensures { result ≡ map.get self.now square }
    {
        self.cells[square.index()]
    }

    /// A copy of the board.
    pub fn copy(&self) -> SBoard
        ensures { result ≡ self.now }
    {
        SBoard {
            cells: self.cells,
            sides: self.sides,
            roles: self.roles,
        }
    }

    /// Lemma: pieces are only on squares 0 to 80.
    pub fn keeps_to_its_squares(&self)
        ensures { (n : ℕ) → 81 ≤ n → map.get self.now n ≡ None }
    {
        let _cells = &self.cells;
    }

    /// Puts a piece on a square and replaces any piece there.
    pub fn put(&mut self, square: Ssq, piece: SPiece)
        ensures { self.new ≡ map.insert self.old square piece }
    {
        self.clear(square);
        add_to(&mut self.sides, side_place(piece.side), square);
        add_to(&mut self.roles, role_place(piece.role), square);
        self.cells[square.index()] = Some(piece);
    }

    /// Removes the piece on a square, if there is one.
    pub fn clear(&mut self, square: Ssq)
        ensures { self.new ≡ map.remove self.old square }
    {
        match self.cells[square.index()] {
            None => {}
            Some(piece) => {
                take_from(&mut self.sides, side_place(piece.side), square);
                take_from(&mut self.roles, role_place(piece.role), square);
                self.cells[square.index()] = None;
            }
        }
    }

    /// The squares of a side's pieces.
    pub fn squares_of_side(&self, side: Side) -> Bitboard81
        ensures { (q : ℕ) → set.contains result q ≡ is_side side (map.get self.now q) }
    {
        squares_at(&self.sides, side_place(side))
    }

    /// The squares that hold the given piece.
    pub fn squares_of(&self, piece: SPiece) -> Bitboard81
        ensures { (q : ℕ) → set.contains result q ≡ holds piece (map.get self.now q) }
    {
        let own = squares_at(&self.sides, side_place(piece.side));
        let alike = squares_at(&self.roles, role_place(piece.role));
        own.intersection(alike)
    }

    /// The number of pieces of a kind on the board, promoted or not.
    pub fn count_kind(&self, kind: HandKind) -> usize
        ensures value { result ≡ count_on (holds_kind kind) self.now }
        ensures range { result ≤ 81 }
    {
        count_cells_of(&self.cells, kind)
    }

    /// The number of a side's kings on the board.
    pub fn count_kings(&self, side: Side) -> usize
        ensures value { result ≡ count_on (holds_king side) self.now }
        ensures range { result ≤ 81 }
    {
        count_king_cells(&self.cells, side)
    }

    // Compares the boards cell by cell.
    pub(crate) fn compare(&self, other: &SBoard) -> Ordering
        ensures { result ≡ board_cmp self.now other.now }
    {
        self.cells[..].cmp(&other.cells[..])
    }
}

impl PartialEq for SBoard {
    ghost use Rattle.squares.specs.ShogiSamePosition.{same_shogi_board};
    ghost use Rattle.squares.specs.internal.ShogiSamePosition.{same_shogi_board-partial};

    ghost eq = { same_shogi_board };

    ghost laws = { same_shogi_board-partial };

    fn eq(&self, other: &SBoard) -> bool {
        self.cells[..] == other.cells[..]
    }
}

impl Eq for SBoard {
    ghost use Rattle.squares.specs.internal.ShogiSamePosition.{same_shogi_board-equivalence};

    ghost laws = { same_shogi_board-equivalence };
}

// Whether a cell holds a piece of the kind, promoted or not.
fn is_cell_of(cell: Option<SPiece>, kind: HandKind) -> bool
    ensures { result ≡ holds_kind kind cell }
{
    match cell {
        None => false,
        Some(piece) => match piece.role.kind().to_hand_kind() {
            None => false,
            Some(own) => own == kind,
        },
    }
}

// Whether a cell holds the side's king.
fn is_king_cell(cell: Option<SPiece>, side: Side) -> bool
    ensures { result ≡ holds_king side cell }
{
    match cell {
        None => false,
        Some(piece) => match piece.role {
            Role::King => piece.side == side,
            _ => false,
        },
    }
}

fn count_cells_of(cells: &[Option<SPiece>], kind: HandKind) -> usize
    ensures value { result ≡ count_by (holds_kind kind) cells.now }
    ensures range { result ≤ length cells.now }
{
    cells.iter().filter(|cell| is_cell_of(**cell, kind)).count()
}

fn count_king_cells(cells: &[Option<SPiece>], side: Side) -> usize
    ensures value { result ≡ count_by (holds_king side) cells.now }
    ensures range { result ≤ length cells.now }
{
    cells
        .iter()
        .filter(|cell| is_king_cell(**cell, side))
        .count()
}
