//! Shogi squares.

ghost use Rattle.std.specs.Prelude.{◌≡◌, ◌↔◌, ◌<◌, ◌≤◌, IsSome, IfSome};
ghost use Rattle.std.specs.List.{range_with_len};
ghost use Rattle.squares.specs.ShogiGeometry.{file_of, rank_of, shogi_number};
ghost use Rattle.squares.specs.internal.ShogiGeometry.{OnShogiBoard};

use std::marker::Model;

/// A shogi square, by file and rank, each 1 to 9.
///
/// Files count from right to left and ranks from top to bottom, as Black sees the board. Squares are ordered by file,
/// then rank; contracts see the index in this order, 0 to 80.
#[derive(Clone, Copy, Debug, PartialEq, Eq, PartialOrd, Ord, Hash)]
pub struct Ssq {
    number: u8,
}

impl Model for Ssq {
    ghost use Rattle.std.specs.Prelude.{ℕ, ◌<◌};

    ghost Value = { ℕ };

    ghost view = { λ s. s.number };

    ghost invariant = { λ s. s.number < 81 };

    ghost inverse = { λ n. record { number = n } };
}

impl Ssq {
    /// The square at a file and a rank, or `None` if one of them is not 1 to 9.
    pub fn new(file: u8, rank: u8) -> Option<Ssq>
        ensures some { IsSome result ↔ OnShogiBoard file rank }
        ensures value { IfSome result (λ square. square ≡ shogi_number file rank) }
    {
        if file < 1 || file > 9 {
            return None;
        }
        if rank < 1 || rank > 9 {
            return None;
        }
        Some(Ssq {
            number: 9 * (file - 1) + (rank - 1),
        })
    }

    /// The file, 1 to 9.
    pub fn file(self) -> u8
        ensures value { result ≡ file_of self }
        ensures range { (1 ≤ result) × (result ≤ 9) }
    {
        self.number / 9 + 1
    }

    /// The rank, 1 to 9.
    pub fn rank(self) -> u8
        ensures value { result ≡ rank_of self }
        ensures range { (1 ≤ result) × (result ≤ 9) }
    {
        self.number % 9 + 1
    }

    /// The index of the square by file, then rank: 0 to 80.
    pub fn index(self) -> usize
        ensures value { result ≡ self }
        ensures range { result < 81 }
    {
        usize::from(self.number)
    }

    /// The square with an index, or `None` if the index is above 80.
    pub fn from_number(number: u8) -> Option<Ssq>
        ensures some { IsSome result ↔ (number < 81) }
        ensures value { IfSome result (λ square. square ≡ number) }
    {
        if number < 81 {
            Some(Ssq { number })
        } else {
            None
        }
    }

    /// The square with an index that is known to be at most 80.
    pub fn of_number(number: u8) -> Ssq
        requires { number < 81 }
        ensures { result ≡ number }
    {
        Ssq { number }
    }

    /// The index of the square by file, then rank: 0 to 80.
    pub fn number(self) -> u8
        ensures value { result ≡ self }
        ensures range { result < 81 }
    {
        self.number
    }

    /// All 81 squares, by file, then rank.
    pub fn all() -> [Ssq; 81]
        ensures { result ≡ range_with_len 0 81 }
    {
        let mut squares = [Ssq { number: 0 }; 81];
        for i in 0..81 {
            squares[i] = Ssq { number: i as u8 };
        }
        squares
    }
}
