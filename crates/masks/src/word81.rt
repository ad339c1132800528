//! The bitboard of the 81 squares of a shogi board.
ghost use Rattle.std.specs.Prelude.{◌≡◌, ◌↔◌, ◌<◌, ◌≤◌, ℕ, false, IsTrue};
ghost use Rattle.std.specs.FinSet as set;
ghost use Rattle.masks.specs.Words.{has_bit};
ghost use Rattle.masks.specs.internal.Words.{Pops};

use std::marker::Model;

/// A set of shogi squares, numbered 0 to 80, in a `u128`: bit `n` is set if square `n` is in the set.
#[derive(Clone, Copy, Debug)]
pub struct Bitboard81 {
    bits: u128,
}

impl Model for Bitboard81 {
    ghost use Rattle.std.specs.Prelude.{◌<◌, ◌^◌};
    ghost use Rattle.std.specs.Coded.{coded_ℕ};
    ghost use Rattle.std.specs.FinSet as sets;
    ghost use Rattle.masks.specs.Words.{Numbers, set_of_word, word_of};
    ghost use Rattle.masks.specs.internal.Words.{word_back};

    ghost Value = { Numbers };

    ghost coded = { sets.code coded_ℕ };

    ghost view = { λ a. set_of_word 0 81 a.bits };

    ghost invariant = { λ a. a.bits < 2 ^ 81 };

    ghost inverse = { λ s. record { bits = word_of 0 81 s } };

    ghost inverse_ok = { λ a h i. record { bits = word_back 0 81 a.bits h i } };
}

impl Bitboard81 {
    /// The empty set.
    pub fn new() -> Bitboard81
        ensures { result ≡ set.empty }
    {
        Bitboard81 { bits: 0 }
    }

    /// The bits of the set: bit `n` is set if square `n` is in the set.
    pub fn word(self) -> u128
        ensures { (n : ℕ) → has_bit result n ≡ set.contains self n }
    {
        self.bits
    }

    /// Whether the square is in the set.
    pub fn contains(self, square: u8) -> bool
        requires { square < 81 }
        ensures { result ≡ set.contains self square }
    {
        (self.bits >> u32::from(square)) & 1 == 1
    }

    /// Whether the set is empty.
    pub fn is_empty(self) -> bool
        ensures { IsTrue result ↔ (self ≡ set.empty) }
    {
        self.bits == 0
    }

    /// The set with a square added.
    pub fn with(self, square: u8) -> Bitboard81
        requires { square < 81 }
        ensures { result ≡ set.insert self square }
    {
        Bitboard81 {
            bits: self.bits | (1 << u32::from(square)),
        }
    }

    /// The set with a square removed.
    pub fn without(self, square: u8) -> Bitboard81
        requires { square < 81 }
        ensures { result ≡ set.remove self square }
    {
        Bitboard81 {
            bits: self.bits & !(1 << u32::from(square)),
        }
    }

    /// The union of the sets.
    pub fn union(self, other: Bitboard81) -> Bitboard81
        ensures { result ≡ set.union self other }
    {
        Bitboard81 {
            bits: self.bits | other.bits,
        }
    }

    /// The intersection of the sets.
    pub fn intersection(self, other: Bitboard81) -> Bitboard81
        ensures { result ≡ set.intersection self other }
    {
        Bitboard81 {
            bits: self.bits & other.bits,
        }
    }

    /// The squares of this set that are not in the other.
    pub fn difference(self, other: Bitboard81) -> Bitboard81
        ensures { result ≡ set.difference self other }
    {
        Bitboard81 {
            bits: self.bits & !other.bits,
        }
    }

    /// Whether the sets are equal.
    pub fn is_same(self, other: Bitboard81) -> bool
        ensures { IsTrue result ↔ (self ≡ other) }
    {
        self.bits == other.bits
    }

    /// Lemma: a set contains only the numbers 0 to 80.
    pub fn keeps_to_its_squares(self)
        ensures { (q : ℕ) → 81 ≤ q → set.contains self q ≡ false }
    {
        let _bits = self.bits;
    }

    /// The number of squares in the set.
    pub fn len(self) -> u32
        ensures { result ≡ set.len self }
    {
        self.bits.count_ones()
    }

    /// Removes and returns the lowest square, or returns `None` if the set is empty.
    pub fn pop(&mut self) -> Option<u8>
        ensures { Pops 0 81 self.old result self.new }
    {
        if self.bits == 0 {
            return None;
        }
        let least = self.bits.trailing_zeros() as u8;
        self.bits &= self.bits - 1;
        Some(least)
    }
}
