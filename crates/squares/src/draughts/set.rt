//! Sets of draughts squares.
ghost use Rattle.std.specs.Prelude.{◌≡◌, ◌↔◌, ◌+◌, ◌^◌, ◌<◌, ◌&&◌, ◌||◌, false, ℕ, IsTrue};
ghost use Rattle.masks.specs.Words.{has_bit};
ghost use Rattle.masks.specs.internal.Words.{IsGreatest, IsLeast};
ghost use Rattle.std.specs.FinSet as set;
ghost use Rattle.std.specs.Option.{option_map_or};
ghost use Rattle.squares.specs.DraughtsGeometry.{step};
ghost use Rattle.squares.specs.DraughtsSets.{ascending};
ghost use Rattle.squares.specs.internal.DraughtsSets.{PopsSquare};
ghost use Rattle.std.specs.Ordering.{nat_cmp};
ghost use Rattle.std.specs.Cmp.Lexicographic.{slice_cmp};

use crate::draughts::direction::Direction;
use crate::draughts::numbers::Numbers;
use crate::draughts::square::Dsq;
use masks::Bitboard50;
use std::cmp::Ordering;
use std::marker::Model;

/// A set of draughts squares, in a bitboard.
#[derive(Clone, Copy, Debug)]
pub struct DSet {
    squares: Bitboard50,
}

impl Model for DSet {
    ghost use Rattle.std.specs.Coded.{coded_ℕ};
    ghost use Rattle.std.specs.FinSet as set;
    ghost use Rattle.squares.specs.DraughtsSets.{Squares};

    ghost Value = { Squares };

    ghost coded = { set.code coded_ℕ };

    ghost view = { λ a. a.squares };

    ghost inverse = { λ s. record { squares = s } };
}

impl DSet {
    /// The empty set.
    pub fn new() -> DSet
        ensures { result ≡ set.empty }
    {
        DSet {
            squares: Bitboard50::new(),
        }
    }

    /// Whether the square is in the set.
    pub fn contains(self, square: Dsq) -> bool
        ensures { result ≡ set.contains self square }
    {
        self.squares.contains(square.number())
    }

    /// Whether the set is empty.
    pub fn is_empty(self) -> bool
        ensures { IsTrue result ↔ (self ≡ set.empty) }
    {
        self.squares.is_empty()
    }

    /// The set with a square added.
    pub fn with(self, square: Dsq) -> DSet
        ensures { result ≡ set.insert self square }
    {
        DSet {
            squares: self.squares.with(square.number()),
        }
    }

    /// The set with a square removed.
    pub fn without(self, square: Dsq) -> DSet
        ensures { result ≡ set.remove self square }
    {
        DSet {
            squares: self.squares.without(square.number()),
        }
    }

    /// The bitboard of the set: bit `n - 1` is set if square `n` is in the set.
    pub fn word(&self) -> u64
        ensures { (n : ℕ) → has_bit result n ≡ set.contains self.now (n + 1) }
    {
        self.squares.word()
    }

    /// Compares the sets lexicographically by their squares in ascending order.
    pub fn compare(self, other: DSet) -> Ordering
        ensures { result ≡ slice_cmp nat_cmp (ascending self) (ascending other) }
    {
        Numbers::from_set(self)
            .as_slice()
            .cmp(Numbers::from_set(other).as_slice())
    }

    /// Removes and returns the lowest square, or returns `None` if the set is empty.
    pub fn pop(&mut self) -> Option<Dsq>
        ensures { PopsSquare self.old result self.new }
    {
        let number = match self.squares.pop() {
            Some(number) => number,
            None => return None,
        };
        Dsq::new(number)
    }

    /// The lowest square, or `None` if the set is empty.
    pub fn least(self) -> Option<Dsq>
        ensures { IsLeast self result }
    {
        self.squares.keeps_to_its_squares();
        match self.squares.least() {
            Some(number) => Dsq::new(number),
            None => None,
        }
    }

    /// The highest square, or `None` if the set is empty.
    pub fn greatest(self) -> Option<Dsq>
        ensures { IsGreatest self result }
    {
        self.squares.keeps_to_its_squares();
        match self.squares.greatest() {
            Some(number) => Dsq::new(number),
            None => None,
        }
    }

    /// The union of the sets.
    pub fn union(self, other: DSet) -> DSet
        ensures { result ≡ set.union self other }
    {
        DSet {
            squares: self.squares.union(other.squares),
        }
    }

    /// The intersection of the sets.
    pub fn intersection(self, other: DSet) -> DSet
        ensures { result ≡ set.intersection self other }
    {
        DSet {
            squares: self.squares.intersection(other.squares),
        }
    }

    /// The squares of this set that are not in the other.
    pub fn difference(self, other: DSet) -> DSet
        ensures { result ≡ set.difference self other }
    {
        DSet {
            squares: self.squares.difference(other.squares),
        }
    }

    /// The squares from which one step in a direction leads into the set.
    pub fn predecessors(self, toward: Direction) -> DSet
        ensures { (n : ℕ) → set.contains result n
            ≡ option_map_or (set.contains self) (step toward n) false }
    {
        let all = self.squares;
        match toward {
            Direction::UpLeft => in_rows(
                all.shift_up(5),
                0x1f07_c1f0_7c00,
                all.shift_up(6),
                0x3_c0f0_3c0f_03c0,
            ),
            Direction::UpRight => in_rows(
                all.shift_up(4),
                0xf03_c0f0_3c00,
                all.shift_up(5),
                0x3_e0f8_3e0f_83e0,
            ),
            Direction::DownLeft => in_rows(
                all.shift_down(5),
                0x1f07_c1f0_7c1f,
                all.shift_down(4),
                0xf0_3c0f_03c0,
            ),
            Direction::DownRight => in_rows(
                all.shift_down(6),
                0xf03_c0f0_3c0f,
                all.shift_down(5),
                0xf8_3e0f_83e0,
            ),
        }
    }

    pub(crate) fn of_word(squares: Bitboard50) -> DSet
        ensures { result ≡ squares }
    {
        DSet { squares }
    }

    /// The number of squares in the set.
    pub fn len(self) -> usize
        ensures { result ≡ set.len self }
    {
        self.squares.len() as usize
    }
}

// The squares of `even` in the rows of the mask `even_rows`, and those of `odd` in the rows of the mask `odd_rows`.
fn in_rows(even: Bitboard50, even_rows: u64, odd: Bitboard50, odd_rows: u64) -> DSet
    requires even_fits { even_rows < 2 ^ 50 }
    requires odd_fits { odd_rows < 2 ^ 50 }
    ensures squares { (n : ℕ) → set.contains result (n + 1)
        ≡ (set.contains even (n + 1) && has_bit even_rows n
        || set.contains odd (n + 1) && has_bit odd_rows n) }
    ensures none { set.contains result 0 ≡ false }
{
    let even = even.intersection(Bitboard50::of_word(even_rows));
    let odd = odd.intersection(Bitboard50::of_word(odd_rows));
    let squares = even.union(odd);
    squares.keeps_to_its_squares();
    DSet { squares }
}

impl PartialEq for DSet {
    ghost use Rattle.squares.specs.DraughtsSets.{same_squares};
    ghost use Rattle.squares.specs.internal.DraughtsSameSquares.{same_squares-partial};

    ghost eq = { same_squares };

    ghost laws = { same_squares-partial };

    fn eq(&self, other: &DSet) -> bool {
        self.squares.is_same(other.squares)
    }
}

impl Eq for DSet {
    ghost use Rattle.squares.specs.internal.DraughtsSameSquares.{same_squares-equivalence};

    ghost laws = { same_squares-equivalence };
}
