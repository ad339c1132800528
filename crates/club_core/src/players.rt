//! The players of a game: their sides and the seconds that they have left.

ghost use Rattle.std.specs.Prelude.{◌≡◌, ◌-◌};
ghost use Rattle.squares.specs.Sides.{same_side};
ghost use Rattle.club_core.specs.Game.{side_after, left_of};
ghost use Rattle.club_core.specs.Step.{side_of_member};
ghost use Rattle.club_core.specs.View.{clocks_in};

use crate::rows::GameRow;
use squares::Side;

/// The side that moves at a ply.
pub fn side_of_ply(ply: u64) -> Side
    ensures { result ≡ side_after (ply - 1) }
{
    if ply == 0 {
        return Side::First;
    }
    if ply % 2 == 1 {
        Side::First
    } else {
        Side::Second
    }
}

/// The side that a member plays, if any.
pub fn side_of_member<E>(row: &GameRow<E>, id: u32) -> Option<Side>
    ensures { result ≡ side_of_member row.now.first row.now.second id }
{
    if id == row.first {
        return Some(Side::First);
    }
    if id == row.second {
        return Some(Side::Second);
    }
    None
}

/// Whether two sides are the same.
pub fn is_side(a: Side, b: Side) -> bool
    ensures { result ≡ same_side a b }
{
    a == b
}

/// The seconds that a side has left, according to the row.
pub fn left_in<E>(row: &GameRow<E>, side: Side) -> u64
    ensures { result ≡ left_of side (clocks_in row.now) }
{
    match side {
        Side::First => row.left_first,
        Side::Second => row.left_second,
    }
}
