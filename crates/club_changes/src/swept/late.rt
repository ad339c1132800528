//! Finds the side that has lost on time, from the row of a game.

ghost use Rattle.std.specs.Prelude.{◌≡◌};
ghost use Rattle.club_core.specs.Game.{side_after};
ghost use Rattle.club_rows.specs.internal.Columns.{columns_in};
ghost use Rattle.club_changes.specs.internal.Late.{late_side};

use clocks::Moment;
use club_rows::columns::GameColumns;
use squares::Side;

/// The side to move after this number of plies.
pub fn side_after(plies: u32) -> Side
    ensures { result ≡ side_after plies }
{
    if plies % 2 == 0 {
        Side::First
    } else {
        Side::Second
    }
}

/// The side to move if the game runs and that side has used more seconds by `moment` than it had left; else None.
pub fn late_side(stored: &GameColumns<'_>, moment: Moment) -> Option<Side>
    ensures { result ≡ late_side (columns_in stored.now) moment }
{
    if stored.end.is_some() {
        return None;
    }
    let turn = side_after(stored.plies);
    let left = match turn {
        Side::First => stored.left_first,
        Side::Second => stored.left_second,
    };
    if left < moment.seconds().saturating_sub(stored.since.seconds()) {
        Some(turn)
    } else {
        None
    }
}
