//! Arrays of bitboards, one for each side or for each role.

ghost use Rattle.std.specs.Prelude.{◌≡◌, ◌<◌, length, slice_set};
ghost use Rattle.std.specs.FinSet as set;
ghost use Rattle.squares.specs.internal.ShogiWords.{side_place, role_place, squares_at};

use crate::shogi::piece::Role;
use crate::shogi::square::Ssq;
use crate::sides::Side;
use masks::Bitboard81;

/// The index of a side's bitboard.
pub(crate) fn side_place(side: Side) -> usize
    ensures value { result ≡ side_place side }
    ensures range { result < 2 }
{
    match side {
        Side::First => 0,
        Side::Second => 1,
    }
}

/// The index of a role's bitboard.
pub(crate) fn role_place(role: Role) -> usize
    ensures value { result ≡ role_place role }
    ensures range { result < 14 }
{
    match role {
        Role::King => 0,
        Role::Rook => 1,
        Role::Bishop => 2,
        Role::Gold => 3,
        Role::Silver => 4,
        Role::Knight => 5,
        Role::Lance => 6,
        Role::Pawn => 7,
        Role::PromotedRook => 8,
        Role::PromotedBishop => 9,
        Role::PromotedSilver => 10,
        Role::PromotedKnight => 11,
        Role::PromotedLance => 12,
        Role::PromotedPawn => 13,
    }
}

pub(crate) fn squares_at(words: &[Bitboard81], place: usize) -> Bitboard81
    requires { place < length words.now }
    ensures { result ≡ squares_at words.now place }
{
    words[place]
}

/// Adds a square to the bitboard at an index.
pub(crate) fn add_to(words: &mut [Bitboard81], place: usize, square: Ssq)
    requires { place < length words.old }
    ensures { words.new ≡ slice_set words.old place (set.insert (squares_at words.old place) square) }
{
    words[place] = squares_at(words, place).with(square.number());
}

/// Removes a square from the bitboard at an index.
pub(crate) fn take_from(words: &mut [Bitboard81], place: usize, square: Ssq)
    requires { place < length words.old }
    ensures { words.new ≡ slice_set words.old place (set.remove (squares_at words.old place) square) }
{
    words[place] = squares_at(words, place).without(square.number());
}
