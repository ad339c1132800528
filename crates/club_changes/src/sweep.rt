//! The effect of a sweep, which ends every overdue game.

ghost use Rattle.std.specs.Prelude.{◌≡◌, map, IfOk, IsErrOf};
ghost use Rattle.club_core.specs.State.{sweep};
ghost use Rattle.club_requests.specs.declared.requests.Caller.TheVariants.{Officer};
ghost use Rattle.club_rows.specs.Club.{ClubState, IsClub, tables};
ghost use Rattle.store_tables.specs.Cells.{game_cells};
ghost use Rattle.store_tables.specs.internal.Cells.{score_cells};
ghost use Rattle.store_tables.specs.Names.{tree_of};
ghost use Rattle.store_tables.specs.declared.names.Table.TheVariants.{Games, Scores};
ghost use Rattle.club_changes.specs.Steps.{HaveSame};
ghost use Rattle.club_changes.specs.internal.Steps.{caller_step, IsDecided};
ghost use Rattle.club_changes.specs.internal.Whole.{IsWhole};
ghost use Rattle.club_changes.specs.internal.Swept.{IsSwept};

use crate::decided::{CommandEffect, changes_at};
use crate::fault::ChangeFault;
use crate::swept::{SweptRows, swept_rows};
use clocks::Moment;
use club_requests::{Answer, Outcome};
use std::alloc::Global;
use store_tables::{GameTableRow, ScoreRow};

fn put_swept(alloc: Global, rows: SweptRows, moment: Moment) -> CommandEffect
    ensures acts { IsWhole result }
    ensures step { (s : ClubState) → IsSwept s moment rows →
        IsDecided s (caller_step s moment Officer sweep) result }
{
    let mut changes = changes_at(alloc, moment);
    changes.games = rows.games;
    changes.scores = rows.scores;
    CommandEffect {
        outcome: Outcome::Accepted(Answer::Swept { count: rows.count }),
        changes: Some(changes),
    }
}

/// Returns the effect of the officer's sweep, from the rows of all games in the order of ids and of all scores.
///
/// # Errors
///
/// - `InconsistentRows` if the rows or values are not those of a legal club.
/// - `Memory` if out of memory.
pub fn sweep_games(
    alloc: Global,
    games: &[GameTableRow],
    scores: &[ScoreRow],
    moment: Moment,
) -> Result<CommandEffect, ChangeFault>
    ensures acts { IfOk result IsWhole }
    ensures step { IfOk result (λ d. (s : ClubState) → IsClub s → map game_cells games.now ≡ tables s (tree_of Games) →
        HaveSame (map score_cells scores.now) (tables s (tree_of Scores)) →
        IsDecided s (caller_step s moment Officer sweep) d) }
    // With the rows of a legal club the only fault is out of memory.
    ensures unfit { IsErrOf result ChangeFault.InconsistentRows → (s : ClubState) → IsClub s →
        map game_cells games.now ≡ tables s (tree_of Games) →
        ¬ HaveSame (map score_cells scores.now) (tables s (tree_of Scores)) }
{
    let rows = swept_rows(alloc, games, scores, moment)?;
    Ok(put_swept(alloc, rows, moment))
}
