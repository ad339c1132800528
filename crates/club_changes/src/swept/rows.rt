//! Computes all rows that a sweep upserts.

ghost use Rattle.std.specs.Prelude.{◌≡◌, map, IfOk, IsErrOf};
ghost use Rattle.store_tables.specs.Cells.{game_cells};
ghost use Rattle.store_tables.specs.internal.Cells.{score_cells};
ghost use Rattle.store_tables.specs.Changes.{HaveSame};
ghost use Rattle.store_tables.specs.Names.{tree_of};
ghost use Rattle.store_tables.specs.declared.names.Table.TheVariants.{Games, Scores};
ghost use Rattle.club_rows.specs.Club.{ClubState, IsClub, tables};
ghost use Rattle.club_changes.specs.internal.Swept.{IsSwept};

use crate::swept::ended::lost_row;
use crate::swept::fault::SweepFault;
use crate::swept::late::late_side;
use crate::swept::standings::{put_scores, standings_of};
use clocks::Moment;
use club_rows::columns::stored_game;
use squares::Score;
use std::alloc::Global;
use store_tables::{GameTableRow, ScoreRow};

/// The rows to upsert, in order. A later row of scores replaces an earlier one of the same two players.
#[derive(Debug, PartialEq, Drop)]
pub struct SweptRows {
    /// The rows of the games that end.
    pub games: Vec<GameTableRow>,
    /// The rows of scores, two for each of these games, in the same order.
    pub scores: Vec<ScoreRow>,
    /// The number of games that end.
    pub count: u32,
}

/// Returns the rows that a sweep upserts, from the rows of all games in the order of ids and of all scores in any
/// order. A running game ends if its side to move has used more seconds than it had left.
///
/// # Errors
///
/// - `InconsistentRows` if the rows are not those of a legal club, or a sum overflows.
/// - `Memory` if out of memory.
pub fn swept_rows(
    alloc: Global,
    games: &[GameTableRow],
    scores: &[ScoreRow],
    moment: Moment,
) -> Result<SweptRows, SweepFault>
    ensures rows { IfOk result (λ rows. (s : ClubState) → IsClub s →
        map game_cells games.now ≡ tables s (tree_of Games) →
        HaveSame (map score_cells scores.now) (tables s (tree_of Scores)) → IsSwept s moment rows) }
    // With the rows of a legal club the only fault is out of memory.
    ensures unfit { IsErrOf result SweepFault.InconsistentRows → (s : ClubState) → IsClub s →
        map game_cells games.now ≡ tables s (tree_of Games) →
        ¬ HaveSame (map score_cells scores.now) (tables s (tree_of Scores)) }
{
    let mut standings = standings_of(alloc, scores)?;
    let mut ended = Vec::new(alloc);
    let mut changed = Vec::new(alloc);
    for game in games {
        let Some(stored) = stored_game(game) else {
            return Err(SweepFault::InconsistentRows);
        };
        let Some(side) = late_side(&stored, moment) else {
            continue;
        };
        let score = Score::lost_by(side);
        put_scores(&mut standings, &mut changed, &stored, score)?;
        ended.push(lost_row(alloc, game, score)?)?;
    }
    let Ok(count) = u32::try_from(ended.len()) else {
        return Err(SweepFault::InconsistentRows);
    };
    Ok(SweptRows {
        games: ended,
        scores: changed,
        count,
    })
}
