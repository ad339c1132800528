//! The rows of an imported game, except its scores.

ghost use Rattle.std.specs.Prelude.{Some, IfOk, IsTrue};
ghost use Rattle.club_rules.specs.Records.{IsGameByRules};
ghost use Rattle.club_rules.specs.internal.Records.{recorded_of};
ghost use Rattle.club_core.specs.Imports.{imported};
ghost use Rattle.club_requests.specs.Limits.{is_budget, is_increment};
ghost use Rattle.club_rows.specs.internal.Replay.{terms_given};
ghost use Rattle.club_changes.specs.internal.NewGames.{AreNewRows};

use crate::imported::moves::move_rows;
use crate::imported::seen::seen_rows;
use clocks::Moment;
use club_core::Pairing;
use club_imports::{NewGame, imported_row};
use club_rows::{Terms, record_of};
use club_rules::{Memory, Rules};
use std::alloc::Global;
use store_tables::{GameTableRow, MoveRow, SeenRow};

/// The rows of a new game: its own, one for each ply and one for each distinct position.
#[derive(Drop)]
pub struct NewRows {
    pub game: GameTableRow,
    pub moves: Vec<MoveRow>,
    pub seen: Vec<SeenRow>,
}

/// Returns the rows of a recorded game that is imported under a key. All plies have the timestamp `moment`.
///
/// # Errors
///
/// `Memory` if out of memory.
pub fn new_rows<R: Rules>(
    alloc: Global,
    key: &str,
    terms: Terms,
    moment: Moment,
    new: &NewGame<R::Move>,
) -> Result<NewRows, Memory>
    requires by_rules { IsGameByRules R.rules (recorded_of new.now.recorded) }
    requires budget { IsTrue (is_budget terms.budget) }
    requires increment { IsTrue (is_increment terms.increment) }
    ensures { IfOk result (AreNewRows R.rules (terms_given terms) new.now.game
        (imported R.rules (Some key.now) new.now.pairing moment (recorded_of new.now.recorded))) }
{
    let moves = new.recorded.moves.as_slice();
    let row = imported_row::<R>(alloc, key, new, terms.budget, terms.increment, moment)?;
    let game = record_of::<R>(alloc, new.game, &row)?;
    let made = move_rows::<R>(alloc, new.game, terms, moment, moves)?;
    let seen = seen_rows::<R>(alloc, new.game, moves)?;
    Ok(NewRows {
        game,
        moves: made,
        seen,
    })
}
