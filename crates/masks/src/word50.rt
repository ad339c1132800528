//! The bitboard of the 50 dark squares of a draughts board.
ghost use Rattle.std.specs.Prelude.{◌≡◌, ◌↔◌, ◌+◌, ◌-◌, ◌^◌, ◌≤◌, ℕ, false, true, ◌⊎◌, ◌<◌, IsTrue};
ghost use Rattle.std.specs.FinSet as set;
ghost use Rattle.masks.specs.Words.{has_bit};
ghost use Rattle.masks.specs.internal.Words.{IsGreatest, IsLeast, Pops};

use std::marker::Model;

/// A set of draughts squares, numbered 1 to 50, in a `u64`: bit `n - 1` is set if square `n` is in the set.
#[derive(Clone, Copy, Debug)]
pub struct Bitboard50 {
    bits: u64,
}

impl Model for Bitboard50 {
    ghost use Rattle.std.specs.Prelude.{◌<◌, ◌^◌};
    ghost use Rattle.std.specs.Coded.{coded_ℕ};
    ghost use Rattle.std.specs.FinSet as sets;
    ghost use Rattle.masks.specs.Words.{Numbers, set_of_word, word_of};
    ghost use Rattle.masks.specs.internal.Words.{word_back};

    ghost Value = { Numbers };

    ghost coded = { sets.code coded_ℕ };

    ghost view = { λ a. set_of_word 1 50 a.bits };

    ghost invariant = { λ a. a.bits < 2 ^ 50 };

    ghost inverse = { λ s. record { bits = word_of 1 50 s } };

    ghost inverse_ok = { λ a h i. record { bits = word_back 1 50 a.bits h i } };
}

impl Bitboard50 {
    /// The empty set.
    pub fn new() -> Bitboard50
        ensures { result ≡ set.empty }
    {
        Bitboard50 { bits: 0 }
    }

    /// The set of all 50 squares.
    pub fn full() -> Bitboard50
        ensures { (q : ℕ) → 1 ≤ q → q ≤ 50 → set.contains result q ≡ true }
    {
        Bitboard50 {
            bits: 0x3_ffff_ffff_ffff,
        }
    }

    /// The bits of the set: bit `n` is set if square `n + 1` is in the set.
    pub fn word(self) -> u64
        ensures { (n : ℕ) → has_bit result n ≡ set.contains self (n + 1) }
    {
        self.bits
    }

    /// Whether the square is in the set.
    pub fn contains(self, square: u8) -> bool
        requires { (1 ≤ square) × (square ≤ 50) }
        ensures { result ≡ set.contains self square }
    {
        (self.bits >> u32::from(square - 1)) & 1 == 1
    }

    /// Whether the set is empty.
    pub fn is_empty(self) -> bool
        ensures { IsTrue result ↔ (self ≡ set.empty) }
    {
        self.bits == 0
    }

    /// The set with a square added.
    pub fn with(self, square: u8) -> Bitboard50
        requires { (1 ≤ square) × (square ≤ 50) }
        ensures { result ≡ set.insert self square }
    {
        Bitboard50 {
            bits: self.bits | (1 << u32::from(square - 1)),
        }
    }

    /// The set with a square removed.
    pub fn without(self, square: u8) -> Bitboard50
        requires { (1 ≤ square) × (square ≤ 50) }
        ensures { result ≡ set.remove self square }
    {
        Bitboard50 {
            bits: self.bits & !(1 << u32::from(square - 1)),
        }
    }

    /// The union of the sets.
    pub fn union(self, other: Bitboard50) -> Bitboard50
        ensures { result ≡ set.union self other }
    {
        Bitboard50 {
            bits: self.bits | other.bits,
        }
    }

    /// The intersection of the sets.
    pub fn intersection(self, other: Bitboard50) -> Bitboard50
        ensures { result ≡ set.intersection self other }
    {
        Bitboard50 {
            bits: self.bits & other.bits,
        }
    }

    /// The squares of this set that are not in the other.
    pub fn difference(self, other: Bitboard50) -> Bitboard50
        ensures { result ≡ set.difference self other }
    {
        Bitboard50 {
            bits: self.bits & !other.bits,
        }
    }

    /// Whether the sets are equal.
    pub fn is_same(self, other: Bitboard50) -> bool
        ensures { IsTrue result ↔ (self ≡ other) }
    {
        self.bits == other.bits
    }

    /// Lemma: a set contains only the numbers 1 to 50.
    pub fn keeps_to_its_squares(self)
        ensures { (q : ℕ) → (q < 1) ⊎ (50 < q) → set.contains self q ≡ false }
    {
        let _bits = self.bits;
    }

    /// The set with the given bits: square `n + 1` is in the set if bit `n` is set.
    pub fn of_word(bits: u64) -> Bitboard50
        requires { bits < 2 ^ 50 }
        ensures { (n : ℕ) → set.contains result (n + 1) ≡ has_bit bits n }
    {
        Bitboard50 { bits }
    }

    /// Adds `by` to the number of every square; squares that would pass 50 are dropped.
    pub fn shift_up(self, by: u8) -> Bitboard50
        requires { by < 50 }
        ensures moved { (q : ℕ) → by < q → q ≤ 50
            → set.contains result q ≡ set.contains self (q - by) }
        ensures left { (q : ℕ) → q ≤ by → set.contains result q ≡ false }
    {
        Bitboard50 {
            bits: (self.bits << u32::from(by)) & 0x3_ffff_ffff_ffff,
        }
    }

    /// Subtracts `by` from the number of every square; squares that would fall below 1 are dropped.
    pub fn shift_down(self, by: u8) -> Bitboard50
        requires { by < 50 }
        ensures { (q : ℕ) → 1 ≤ q → set.contains result q ≡ set.contains self (q + by) }
    {
        Bitboard50 {
            bits: self.bits >> u32::from(by),
        }
    }

    /// The number of squares in the set.
    pub fn len(self) -> u32
        ensures { result ≡ set.len self }
    {
        self.bits.count_ones()
    }

    /// The lowest square, or `None` if the set is empty.
    pub fn least(self) -> Option<u8>
        ensures { IsLeast self result }
    {
        if self.bits == 0 {
            return None;
        }
        Some(self.bits.trailing_zeros() as u8 + 1)
    }

    /// The highest square, or `None` if the set is empty.
    pub fn greatest(self) -> Option<u8>
        ensures { IsGreatest self result }
    {
        if self.bits == 0 {
            return None;
        }
        Some(64 - self.bits.leading_zeros() as u8)
    }

    /// Removes and returns the lowest square, or returns `None` if the set is empty.
    pub fn pop(&mut self) -> Option<u8>
        ensures { Pops 1 50 self.old result self.new }
    {
        if self.bits == 0 {
            return None;
        }
        let least = self.bits.trailing_zeros() as u8 + 1;
        self.bits &= self.bits - 1;
        Some(least)
    }
}
