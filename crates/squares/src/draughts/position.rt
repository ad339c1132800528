//! A draughts position: a board and the side to move.
ghost use Rattle.std.specs.Prelude.{◌≡◌, ◌+◌, ◌<◌, ◌≤◌, ℕ, false, Option, length, not, ◌⊎◌, None};
ghost use Rattle.std.specs.Prelude.{is_none};
ghost use Rattle.std.specs.FinMap as map;
ghost use Rattle.std.specs.FinSet as set;
ghost use Rattle.squares.specs.internal.DraughtsGeometry.{OnBoard};
ghost use Rattle.squares.specs.DraughtsBoard.{board_of};
ghost use Rattle.squares.specs.internal.DraughtsBoard.{is_of};
ghost use Rattle.squares.specs.internal.DraughtsKept.{is_king, Marks, cell_in, cells_in, noted};
ghost use Rattle.squares.specs.DraughtsOpening.{opening, opening_piece, man};
ghost use Rattle.squares.specs.Sides.{other};

use crate::draughts::piece::DPiece;
use crate::draughts::set::DSet;
use crate::draughts::square::Dsq;
use crate::sides::Side;
use masks::Bitboard50;
use std::hash::{Hash, Hasher};
use std::marker::Model;

/// A draughts position: at most one piece on each square, and the side to move.
///
/// Positions are equal if they have the same pieces on the same squares and the same side to move. A position is three
/// bitboards, of each side's pieces and of the kings.
#[derive(Clone, Copy, Debug)]
pub struct DPos {
    first: Bitboard50,
    second: Bitboard50,
    kings: Bitboard50,
    turn: Side,
}

impl Model for DPos {
    ghost use Rattle.squares.specs.DraughtsBoard.{Position, board_of};
    ghost use Rattle.squares.specs.internal.DraughtsBoard.{is_of};
    ghost use Rattle.squares.specs.internal.DraughtsKept.{KeepsCells, cells_in, is_king, squares_where, where_back};
    ghost use Rattle.squares.specs.declared.sides.Side.TheVariants as side;
    ghost use Rattle.std.specs.Coded.{code_by, coded×, coded_ℕ};
    ghost use Rattle.std.specs.FinMap as finite_map;
    ghost use Rattle.std.specs.Prelude.{refl};
    ghost use Rattle.squares.specs.contracts.draughts.piece.DPiece as piece_type;
    ghost use Rattle.squares.specs.contracts.sides.Side as side_type;
    ghost use Rattle.squares.specs.DraughtsBoard.{Board};
    ghost use Rattle.squares.specs.declared.sides.Side.{Side};

    ghost Value = { Position };

    ghost coded = { code_by (Board × Side)
        (coded× (finite_map.code coded_ℕ piece_type.the_row.coded) side_type.the_row.coded)
        (λ p. (p.board, p.turn)) (λ q. record { board = q.0; turn = q.1 }) (λ _. refl) };

    ghost view = { λ p. record { board = board_of (cells_in p.first p.second p.kings); turn = p.turn } };

    ghost invariant = { λ p. KeepsCells (cells_in p.first p.second p.kings) p.first p.second p.kings };

    ghost inverse = { λ p. record {
      first = squares_where (is_of side.First) p.board;
      second = squares_where (is_of side.Second) p.board;
      kings = squares_where is_king p.board;
      turn = p.turn;
    } };

    ghost inverse_ok = { λ a h i. record {
      first = where_back (is_of side.First) refl (cells_in a.first a.second a.kings) a.first
          h.has_cells h.of_first i;
      second = where_back (is_of side.Second) refl (cells_in a.first a.second a.kings) a.second
          h.has_cells h.of_second i;
      kings = where_back is_king refl (cells_in a.first a.second a.kings) a.kings h.has_cells h.of_kings i;
      turn = a.turn;
    } };
}

impl DPos {
    /// The empty board with `turn` to move.
    pub fn new(turn: Side) -> DPos
        ensures { result ≡ record { board = map.empty; turn = turn } }
    {
        DPos {
            first: Bitboard50::new(),
            second: Bitboard50::new(),
            kings: Bitboard50::new(),
            turn,
        }
    }

    /// The starting position: Second's men on squares 1 to 20, First's men on squares 31 to 50, First to move.
    pub fn opening() -> DPos
        ensures value { result ≡ opening }
        ensures pieces { (n : ℕ) → OnBoard n → map.get result.board n ≡ opening_piece n }
    {
        let mut cells = [None; 50];
        for i in 0..50 {
            cells[i] = opening_piece(i as u8 + 1);
        }
        DPos {
            first: squares_in(&cells, Side::First),
            second: squares_in(&cells, Side::Second),
            kings: Bitboard50::new(),
            turn: Side::First,
        }
    }

    /// The side to move.
    pub fn turn(&self) -> Side
        ensures { result ≡ self.now.turn }
    {
        self.turn
    }

    /// The piece on a square, or `None` if the square is empty.
    pub fn piece_at(&self, square: Dsq) -> Option<DPiece>
        ensures { result ≡ map.get self.now.board square }
    {
        cell_in(self.first, self.second, self.kings, square.number())
    }

    /// The squares of a side's pieces.
    pub fn squares_of(&self, side: Side) -> DSet
        ensures { (n : ℕ) → set.contains result n ≡ is_of side (map.get self.now.board n) }
    {
        match side {
            Side::First => DSet::of_word(self.first),
            Side::Second => DSet::of_word(self.second),
        }
    }

    /// The squares of the kings of both sides.
    pub fn kings(&self) -> DSet
        ensures { (n : ℕ) → set.contains result n ≡ is_king (map.get self.now.board n) }
    {
        DSet::of_word(self.kings)
    }

    /// The empty squares of the board.
    pub fn empty_squares(&self) -> DSet
        ensures empty { (n : ℕ) → OnBoard n
            → set.contains result n ≡ is_none (map.get self.now.board n) }
        ensures off_board { (n : ℕ) → (n < 1) ⊎ (50 < n) → set.contains result n ≡ false }
    {
        let occupied = self.first.union(self.second);
        let empty = Bitboard50::full().difference(occupied);
        empty.keeps_to_its_squares();
        DSet::of_word(empty)
    }

    /// Puts a piece on a square and replaces any piece there.
    pub fn put(&mut self, square: Dsq, piece: DPiece)
        ensures { self.new ≡ record self.old { board = map.insert self.old.board square piece } }
    {
        self.first = noted(self.first, square, is_of(Side::First, Some(piece)));
        self.second = noted(self.second, square, is_of(Side::Second, Some(piece)));
        self.kings = noted(self.kings, square, piece.king);
    }

    /// Removes the piece on a square, if there is one.
    pub fn clear(&mut self, square: Dsq)
        ensures { self.new ≡ record self.old { board = map.remove self.old.board square } }
    {
        self.first = self.first.without(square.number());
        self.second = self.second.without(square.number());
        self.kings = self.kings.without(square.number());
    }

    /// Removes the pieces on all squares of a set.
    pub fn clear_all(&mut self, squares: DSet)
        ensures { self.new ≡ record self.old {
          board = map.retain_keys self.old.board (λ n. not (set.contains squares n));
        } }
    {
        let mut rest = squares;
        while let Some(square) = rest.pop() {
            self.clear(square);
        }
    }

    /// Lemma: pieces are only on squares 1 to 50.
    pub fn keeps_to_its_squares(&self)
        ensures { (n : ℕ) → (n < 1) ⊎ (50 < n) → map.get self.now.board n ≡ None }
    {
        let _first = self.first;
    }

    /// Passes the turn to the other side.
    pub fn pass_turn(&mut self)
        ensures { self.new ≡ record self.old { turn = other self.old.turn } }
    {
        self.turn = self.turn.other();
    }
}

impl PartialEq for DPos {
    ghost use Rattle.squares.specs.DraughtsSamePosition.{same_position};
    ghost use Rattle.squares.specs.internal.DraughtsSamePosition.{same_position-partial};

    ghost eq = { same_position };

    ghost laws = { same_position-partial };

    fn eq(&self, other: &DPos) -> bool {
        if self.turn != other.turn {
            return false;
        }
        if !self.first.is_same(other.first) {
            return false;
        }
        if !self.second.is_same(other.second) {
            return false;
        }
        self.kings.is_same(other.kings)
    }
}

impl Eq for DPos {
    ghost use Rattle.squares.specs.internal.DraughtsSamePosition.{same_position-equivalence};

    ghost laws = { same_position-equivalence };
}

// The hash covers the squares in order, then the side to move.
impl Hash for DPos {
    ghost use Rattle.squares.specs.internal.DraughtsSamePosition.{same_position-same};
    ghost use Rattle.squares.specs.internal.DraughtsHash.{hash_writes};
    ghost use Rattle.std.proofs.Common.{ap};

    ghost hash_input = { hash_writes ⟦<Option<DPiece> as Hash>⟧.hash_input ⟦<Side as Hash>⟧.hash_input };

    ghost respects_eq = { λ p q same. ap
        (hash_writes ⟦<Option<DPiece> as Hash>⟧.hash_input ⟦<Side as Hash>⟧.hash_input)
        (same_position-same p q same) };

    fn hash<H: Hasher>(&self, state: &mut H) {
        let cells = cells_in(self.first, self.second, self.kings);
        cells.hash(state);
        self.turn.hash(state);
    }
}

// The content of a square, by the bitboards of each side's pieces and of the kings.
fn cell_in(first: Bitboard50, second: Bitboard50, kings: Bitboard50, number: u8) -> Option<DPiece>
    requires { (1 ≤ number) × (number ≤ 50) }
    ensures { result ≡ cell_in first second kings number }
{
    if first.contains(number) {
        return Some(DPiece {
            side: Side::First,
            king: kings.contains(number),
        });
    }
    if second.contains(number) {
        return Some(DPiece {
            side: Side::Second,
            king: kings.contains(number),
        });
    }
    None
}

// The content of the 50 squares in order.
fn cells_in(first: Bitboard50, second: Bitboard50, kings: Bitboard50) -> [Option<DPiece>; 50]
    ensures { result ≡ cells_in first second kings }
{
    let mut cells = [None; 50];
    for i in 0..50 {
        cells[i] = cell_in(first, second, kings, i as u8 + 1);
    }
    cells
}

// The squares of a side's pieces in a list of 50 cells.
fn squares_in(cells: &[Option<DPiece>], side: Side) -> Bitboard50
    requires { length cells.now ≡ 50 }
    ensures { Marks (is_of side) result (board_of cells.now) }
{
    let mut squares = Bitboard50::new();
    for i in 0..50 {
        if is_of(side, cells[i]) {
            squares = squares.with(i as u8 + 1);
        }
    }
    squares
}

// Adds the square to the set if `is_in`, otherwise removes it.
fn noted(squares: Bitboard50, square: Dsq, is_in: bool) -> Bitboard50
    ensures { result ≡ noted squares square is_in }
{
    if is_in {
        squares.with(square.number())
    } else {
        squares.without(square.number())
    }
}

// Whether the cell holds a piece of the side.
fn is_of(side: Side, cell: Option<DPiece>) -> bool
    ensures { result ≡ is_of side cell }
{
    match cell {
        Some(piece) => piece.side == side,
        None => false,
    }
}

// The piece on a square in the starting position.
fn opening_piece(number: u8) -> Option<DPiece>
    ensures { result ≡ opening_piece number }
{
    match number {
        0..=20 => Some(man(Side::Second)),
        21..=30 => None,
        _ => Some(man(Side::First)),
    }
}

fn man(side: Side) -> DPiece
    ensures { result ≡ man side }
{
    DPiece { side, king: false }
}
