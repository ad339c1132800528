//! Checks during a repetition.
ghost use Rattle.std.specs.Prelude.{◌≡◌};
ghost use Rattle.shogi_moves.specs.internal.Computed.{has_move};
ghost use Rattle.shogi_repetition.specs.Ends.{is_in_check, end_by_checks};

use crate::ends::SEnd;
use shogi_moves::{has_move, in_check};
use squares::{SPos, Side};

/// Whether the side to move has a legal move.
pub(crate) fn can_move(position: &SPos) -> bool
    ensures { result ≡ has_move position.now }
{
    has_move(position)
}

/// Whether the side to move is in check.
pub(crate) fn is_in_check(position: &SPos) -> bool
    ensures { result ≡ is_in_check position.now }
{
    in_check(position)
}

/// The end of a fourth repetition; `first` and `second` tell whether that side gave check with each of its moves.
pub(crate) fn end_by_checks(first: bool, second: bool) -> SEnd
    ensures { result ≡ end_by_checks first second }
{
    match (first, second) {
        (true, false) => SEnd::PerpetualCheck(Side::First),
        (false, true) => SEnd::PerpetualCheck(Side::Second),
        _ => SEnd::Fourfold,
    }
}
