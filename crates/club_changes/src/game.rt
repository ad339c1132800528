//! Rows of a game that a command changes.

ghost use Rattle.std.specs.Prelude.{◌≡◌, ◌<◌, ◌^◌, List, [], ◌∷◌, map, Some, None, IfOk, IsTrue};
ghost use Rattle.club_core.specs.Events as core;
ghost use Rattle.club_core.specs.Game.{Game};
ghost use Rattle.club_core.specs.Legal.{IsLegalGame};
ghost use Rattle.club_requests.specs.Limits.{is_budget, is_increment};
ghost use Rattle.club_core.specs.Step as machine;
ghost use Rattle.club_core.specs.Step.{game_step};
ghost use Rattle.club_core.specs.View.{IsRowOf};
ghost use Rattle.club_core.specs.internal.View.{IsConcluded};
ghost use Rattle.club_rows.specs.Tables.{game_row};
ghost use Rattle.store_tables.specs.Cells.{move_cells};
ghost use Rattle.sqlite.specs.Order.{Row};
ghost use Rattle.club_changes.specs.internal.Steps.{Puts, IsDecidedIn, IsSeenAfter, AreScoresAfter, no_rows};
ghost use Rattle.club_changes.specs.internal.Steps.{answered_rows, left_answered, seen_list, score_list};
ghost use Rattle.club_changes.specs.internal.Whole.{IsWhole};
ghost use Rattle.store_tables.specs.Cells.{seen_cells};
ghost use Rattle.store_tables.specs.internal.Cells.{score_cells};
ghost use Rattle.store_tables.specs.declared.rows.SeenRow.{SeenRow};

use crate::decided::{CommandEffect, changes_at, without_changes};
use clocks::Moment;
use club_core::{Decision, GameRow};
use club_requests::{Answer, Caller, Outcome};
use club_rows::{ScoreRows, move_row, record_of};
use club_rules::{Memory, Rules};
use std::alloc::Global;
use store_tables::{Changes, MoveRow, ScoreRow, SeenRow};

/// The rows of the repetition count and of the scores that a decision changes.
#[derive(Drop)]
pub struct DerivedRows {
    /// The row of the position after the move. None if no move was made.
    pub seen: Option<SeenRow>,
    /// The rows of both players if the game has ended.
    pub scores: Option<ScoreRows>,
}

// The row of the move, if the reply is to a move.
fn answered_moves(
    alloc: Global,
    game: u32,
    answer: &Answer,
    moment: Moment,
) -> Result<Vec<MoveRow>, Memory>
    // Seconds below 2^63 are stored exactly.
    ensures { IfOk result (λ rows. left_answered answer.now < 2 ^ 63 →
        map move_cells rows.items ≡ answered_rows game answer.now moment) }
{
    let mut rows = Vec::new(alloc);
    match answer {
        Answer::Moved(moved) => rows.push(move_row(game, moved, moment)?)?,
        Answer::Member(_) => {}
        Answer::Event(_) => {}
        Answer::Game(_) => {}
        Answer::Offered { ply: _ } => {}
        Answer::Ended { end: _, result: _ } => {}
        Answer::Swept { count: _ } => {}
        Answer::ChallengeOpened { number: _ } => {}
        Answer::ChallengeWithdrawn { number: _ } => {}
        Answer::ChallengeRefused { number: _ } => {}
        Answer::ChallengeAccepted { number: _, game: _ } => {}
        Answer::KeyGiven { number: _ } => {}
        Answer::EventClosed => {}
        Answer::RulingGiven { number: _ } => {}
    }
    Ok(rows)
}

pub(crate) fn listed_seen(alloc: Global, seen: Option<SeenRow>) -> Result<Vec<SeenRow>, Memory>
    ensures { IfOk result (λ rows. map seen_cells rows.items ≡ seen_list seen) }
{
    let mut rows = Vec::new(alloc);
    match seen {
        Some(row) => rows.push(row)?,
        None => {}
    }
    Ok(rows)
}

pub(crate) fn listed_scores(
    alloc: Global,
    scores: Option<ScoreRows>,
) -> Result<Vec<ScoreRow>, Memory>
    ensures { IfOk result (λ rows. map score_cells rows.items ≡ score_list scores) }
{
    let mut rows = Vec::new(alloc);
    match scores {
        Some(pair) => {
            rows.push(pair.first)?;
            rows.push(pair.second)?;
        }
        None => {}
    }
    Ok(rows)
}

// The rows of a changed game, with the row of its move if one was played.
fn changed_rows<R: Rules>(
    alloc: Global,
    game: u32,
    row: &GameRow<R::End>,
    answer: &Answer,
    counts: DerivedRows,
    moment: Moment,
) -> Result<Changes, Memory>
    // Seconds below 2^63 are stored exactly.
    ensures { IfOk result (λ changes. (terms : core.Terms) (new : Game R.Move) → row.now.left_first < 2 ^ 63 →
        row.now.left_second < 2 ^ 63 → left_answered answer.now < 2 ^ 63 → IsRowOf R.rules terms new row.now →
        Puts changes moment (record no_rows {
          games = game_row R.rules terms game new ∷ [];
          moves = answered_rows game answer.now moment;
          seen = seen_list counts.seen;
          scores = score_list counts.scores;
        })) }
{
    let mut changes = changes_at(alloc, moment);
    changes.games.push(record_of::<R>(alloc, game, row)?)?;
    changes.moves = answered_moves(alloc, game, answer, moment)?;
    changes.seen = listed_seen(alloc, counts.seen)?;
    changes.scores = listed_scores(alloc, counts.scores)?;
    Ok(changes)
}

/// Returns the effect of a decision in a game: the game's row, and the row of the move if one was made; no rows if it
/// was repeated or refused.
///
/// # Errors
///
/// `Memory` if out of memory.
pub fn put_decision<R: Rules>(
    alloc: Global,
    game: u32,
    shown: Decision<R>,
    counts: DerivedRows,
    moment: Moment,
) -> Result<CommandEffect, Memory>
    ensures acts { IfOk result IsWhole }
    ensures step { IfOk result (λ d. (terms : core.Terms) (old : Game R.Move) (who : Caller)
        (command : machine.GameCommand)
        (table : List Row) → IsTrue (is_budget terms.budget) → IsTrue (is_increment terms.increment) →
        IsLegalGame R.rules terms old →
        IsConcluded R.rules terms old (game_step R.rules terms old moment who command) shown →
        IsSeenAfter R.rules game (game_step R.rules terms old moment who command) shown counts.seen →
        AreScoresAfter table shown counts.scores →
        IsDecidedIn R.rules terms game moment table old (game_step R.rules terms old moment who command) d) }
{
    let (row, answer) = match shown {
        Decision::Accepted {
            row,
            made: _,
            answer,
        } => (row, answer),
        Decision::Repeated(answer) => return Ok(without_changes(Outcome::Repeated(answer))),
        Decision::Refused(refusal) => return Ok(without_changes(Outcome::Refused(refusal))),
    };
    let changes = changed_rows::<R>(alloc, game, &row, &answer, counts, moment)?;
    Ok(CommandEffect {
        outcome: Outcome::Accepted(answer),
        changes: Some(changes),
    })
}
