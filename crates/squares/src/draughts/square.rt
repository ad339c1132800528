//! Draughts squares, by number.
ghost use Rattle.std.specs.Prelude.{◌≡◌, ◌↔◌, ◌+◌, ◌%◌, ◌<◌, ◌≤◌, IsSome, IfSome, ℕ};
ghost use Rattle.std.specs.List.{range_with_len, slice_index};
ghost use Rattle.squares.specs.DraughtsGeometry.{row_of, column_of, number_at, neighbor, step};
ghost use Rattle.squares.specs.internal.DraughtsGeometry.{IsDark};
ghost use Rattle.squares.specs.internal.DraughtsTable.{place_of};

use crate::draughts::direction::Direction;
use std::marker::Model;

/// A dark square of the 10 × 10 board, numbered 1 to 50.
///
/// Rows and columns count from 0; row 0 is the top. Square `n` has row `(n - 1) / 5` and column `2 * ((n - 1) % 5)`,
/// plus 1 in even rows. First, who plays White, sits at the bottom.
#[derive(Clone, Copy, Debug, PartialEq, Eq, PartialOrd, Ord, Hash)]
pub struct Dsq {
    number: u8,
}

impl Model for Dsq {
    ghost Value = { ℕ };

    ghost view = { λ s. s.number };

    ghost invariant = { λ s. (1 ≤ s.number) × (s.number ≤ 50) };

    ghost inverse = { λ n. record { number = n } };
}

impl Dsq {
    /// The square with a number, or `None` if the number is not 1 to 50.
    pub fn new(number: u8) -> Option<Dsq>
        ensures some { IsSome result ↔ ((1 ≤ number) × (number ≤ 50)) }
        ensures value { IfSome result (λ s. s ≡ number) }
    {
        if number >= 1 && number <= 50 {
            Some(Dsq { number })
        } else {
            None
        }
    }

    /// All 50 squares, in ascending order.
    pub fn all() -> [Dsq; 50]
        ensures { result ≡ range_with_len 1 50 }
    {
        let mut squares = [Dsq { number: 1 }; 50];
        for i in 0..50 {
            squares[i] = Dsq {
                number: i as u8 + 1,
            };
        }
        squares
    }

    /// The number of the square, 1 to 50.
    pub fn number(self) -> u8
        ensures value { result ≡ self }
        ensures range { (1 ≤ self) × (self ≤ 50) }
    {
        self.number
    }

    /// The row, from 0 at the top to 9.
    pub fn row(self) -> u8
        ensures value { result ≡ row_of self }
        ensures range { result < 10 }
    {
        (self.number - 1) / 5
    }

    /// The column, from 0 at the left to 9.
    pub fn column(self) -> u8
        ensures value { result ≡ column_of self }
        ensures range { result < 10 }
    {
        2 * ((self.number - 1) % 5) + (1 - self.row() % 2)
    }

    /// The square at a row and a column.
    ///
    /// `None` if one of them is above 9 or the square is light, that is, if their sum is even.
    pub fn from_coords(row: u8, column: u8) -> Option<Dsq>
        ensures dark { IsSome result ↔ IsDark row column }
        ensures value { IfSome result (λ s. s ≡ number_at row column) }
    {
        if row > 9 || column > 9 || row % 2 == column % 2 {
            return None;
        }
        Some(Dsq::on(row, column))
    }

    // The dark square at a row and a column.
    fn on(row: u8, column: u8) -> Dsq
        requires row_in { row < 10 }
        requires column_in { column < 10 }
        ensures { result ≡ number_at row column }
    {
        Dsq {
            number: 5 * row + column / 2 + 1,
        }
    }

    /// The next square in a direction, or `None` at the edge of the board.
    pub fn step(self, toward: Direction) -> Option<Dsq>
        ensures { result ≡ step toward self }
    {
        self.neighbor(toward)
    }

    fn neighbor(self, toward: Direction) -> Option<Dsq>
        ensures value { result ≡ neighbor toward self }
        ensures range { (1 ≤ self) × (self ≤ 50) }
    {
        let number = entry(place_of(toward) + usize::from(self.number));
        if number == 0 {
            return None;
        }
        Some(Dsq { number })
    }
}

// The neighbour of each square, 0 if there is none: after an unused entry, 50 numbers for each direction.
static NEIGHBORS: [u8; 201] = [
    0, //
    0, 0, 0, 0, 0, 0, 1, 2, 3, 4, 6, 7, 8, 9, 10, 0, 11, 12, 13, 14, 16, 17, 18, 19, 20, 0, 21, 22,
    23, 24, 26, 27, 28, 29, 30, 0, 31, 32, 33, 34, 36, 37, 38, 39, 40, 0, 41, 42, 43, 44, 0, 0, 0,
    0, 0, 1, 2, 3, 4, 5, 7, 8, 9, 10, 0, 11, 12, 13, 14, 15, 17, 18, 19, 20, 0, 21, 22, 23, 24, 25,
    27, 28, 29, 30, 0, 31, 32, 33, 34, 35, 37, 38, 39, 40, 0, 41, 42, 43, 44, 45, 6, 7, 8, 9, 10,
    0, 11, 12, 13, 14, 16, 17, 18, 19, 20, 0, 21, 22, 23, 24, 26, 27, 28, 29, 30, 0, 31, 32, 33,
    34, 36, 37, 38, 39, 40, 0, 41, 42, 43, 44, 46, 47, 48, 49, 50, 0, 0, 0, 0, 0, 7, 8, 9, 10, 0,
    11, 12, 13, 14, 15, 17, 18, 19, 20, 0, 21, 22, 23, 24, 25, 27, 28, 29, 30, 0, 31, 32, 33, 34,
    35, 37, 38, 39, 40, 0, 41, 42, 43, 44, 45, 47, 48, 49, 50, 0, 0, 0, 0, 0, 0,
];

fn entry(place: usize) -> u8
    requires { place < 201 }
    ensures { result ≡ slice_index NEIGHBORS place }
{
    NEIGHBORS[place]
}

// The offset of a direction's entries in a table: the entry of square `n` is at this offset plus `n`.
pub(crate) fn place_of(toward: Direction) -> usize
    ensures { result ≡ place_of toward }
{
    match toward {
        Direction::UpLeft => 0,
        Direction::UpRight => 50,
        Direction::DownLeft => 100,
        Direction::DownRight => 150,
    }
}
