//! Pieces in hand.

ghost use Rattle.std.specs.Prelude.{◌≡◌};
ghost use Rattle.squares.specs.ShogiHands.{count_of, with_count, hand_of};

use crate::shogi::piece::HandKind;
use crate::sides::Side;

/// The number of pieces of each kind in a side's hand.
#[derive(Clone, Copy, Debug, Default, PartialEq, Eq, PartialOrd, Ord, Hash)]
pub struct Hand {
    pub rook: u8,
    pub bishop: u8,
    pub gold: u8,
    pub silver: u8,
    pub knight: u8,
    pub lance: u8,
    pub pawn: u8,
}

/// The hands of both sides.
#[derive(Clone, Copy, Debug, Default, PartialEq, Eq, PartialOrd, Ord, Hash)]
pub struct Hands {
    pub first: Hand,
    pub second: Hand,
}

impl Hand {
    /// The number of pieces of a kind in the hand.
    pub fn count(self, kind: HandKind) -> u8
        ensures { result ≡ count_of kind self }
    {
        match kind {
            HandKind::Rook => self.rook,
            HandKind::Bishop => self.bishop,
            HandKind::Gold => self.gold,
            HandKind::Silver => self.silver,
            HandKind::Knight => self.knight,
            HandKind::Lance => self.lance,
            HandKind::Pawn => self.pawn,
        }
    }

    /// The hand with `count` pieces of a kind, and the other kinds unchanged.
    pub fn with_count(self, kind: HandKind, count: u8) -> Hand
        ensures { result ≡ with_count kind count self }
    {
        let mut hand = self;
        match kind {
            HandKind::Rook => hand.rook = count,
            HandKind::Bishop => hand.bishop = count,
            HandKind::Gold => hand.gold = count,
            HandKind::Silver => hand.silver = count,
            HandKind::Knight => hand.knight = count,
            HandKind::Lance => hand.lance = count,
            HandKind::Pawn => hand.pawn = count,
        }
        hand
    }
}

impl Hands {
    /// The hand of a side.
    pub fn hand(self, side: Side) -> Hand
        ensures { result ≡ hand_of side self }
    {
        match side {
            Side::First => self.first,
            Side::Second => self.second,
        }
    }
}
