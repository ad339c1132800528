//! Rows of a ruling of the arbiter on a game. Only a club of schema 3 can store them.

ghost use Rattle.std.specs.Prelude.{◌≡◌, ◌<◌, ◌^◌, ℕ, List, [], ◌∷◌, map, None, Option, IfOk, IsTrue};
ghost use Rattle.sqlite.specs.Order.{Row};
ghost use Rattle.club_requests.specs.Limits.{is_budget, is_increment};
ghost use Rattle.club_requests.specs.Outcome.{by_officer};
ghost use Rattle.club_requests.specs.Rulings.{verdict_in};
ghost use Rattle.club_requests.specs.declared.rulings.Ruling.{Ruling};
ghost use Rattle.club_requests.specs.declared.rulings.Verdict.{Verdict};
ghost use Rattle.club_core.specs.Events as core;
ghost use Rattle.club_core.specs.Game.{Game, end_with};
ghost use Rattle.club_core.specs.Legal.{IsLegalGame};
ghost use Rattle.club_core.specs.Step.{ruling_step};
ghost use Rattle.club_core.specs.View.{IsRowOf};
ghost use Rattle.club_core.specs.internal.View.{IsConcluded};
ghost use Rattle.club_core.specs.declared.rows.GameRow as given_rows;
ghost use Rattle.club_rows.specs.Tables.{game_row, kept_by, replaced_by};
ghost use Rattle.store_tables.specs.Cells.{ruling_cells};
ghost use Rattle.club_changes.specs.internal.Steps.{AreScoresRuled, HasRulingRow, IsRuledIn, Puts, no_rows};
ghost use Rattle.club_changes.specs.internal.Steps.{ruling_list, score_list};
ghost use Rattle.club_changes.specs.internal.Whole.{IsWhole};

use crate::decided::{CommandEffect, changes_at, without_changes};
use crate::game::listed_scores;
use clocks::Moment;
use club_core::{Decision, GameEnd, GameRow, GivenRuling};
use club_requests::{Caller, Outcome, OutsideEnd, Rule, Ruling};
use club_rows::{ScoreRows, record_of, ruling_row};
use club_rules::{Memory, Rules};
use std::alloc::Global;
use store_tables::{Changes, RulingRow};

/// The rows of the ruling and of the scores that a decision changes.
#[derive(Drop)]
pub struct RulingRows {
    /// The row of the ruling. None if none was given.
    pub ruling: Option<RulingRow>,
    /// The rows of both players if the result changes.
    pub scores: Option<ScoreRows>,
}

// The end outside the rules that the ruling replaces: that of the row, if this is the first verdict on the game.
fn beneath<E>(row: &GameRow<E>, ruling: Ruling) -> Option<OutsideEnd>
    ensures { (verdict : Option Verdict) → row.now.end ≡ end_with None verdict row.now.outside →
        result ≡ replaced_by (verdict_in ruling) (kept_by verdict row.now.outside) }
{
    if ruling.is_grant() {
        return None;
    }
    match row.end {
        Some(GameEnd::Verdict(_)) => None,
        _ => row.outside,
    }
}

/// Returns the row of the ruling if the decision accepts it; `old` is the game's row before it.
///
/// # Errors
///
/// `Memory` if out of memory.
pub fn ruling_row_of_decision<R: Rules>(
    alloc: Global,
    game: u32,
    old: &GameRow<R::End>,
    decision: &Decision<R>,
    command: &Rule,
    moment: Moment,
) -> Result<Option<RulingRow>, Memory>
    ensures { IfOk result (λ row. (terms : core.Terms) (was : Game R.Move) (who : Caller) →
        IsRowOf R.rules terms was old.now → IsLegalGame R.rules terms was →
        IsConcluded R.rules terms was
        (by_officer who (ruling_step R.rules was command.now.number command.now.ruling moment)) decision.now →
        HasRulingRow game was command.now.ruling moment
        (by_officer who (ruling_step R.rules was command.now.number command.now.ruling moment)) row) }
{
    match decision {
        Decision::Accepted {
            row: _,
            made: _,
            answer: _,
        } => {
            let given = GivenRuling {
                ruling: command.ruling,
                moment,
                plies: u64::from(old.plies),
            };
            let over = beneath(old, command.ruling);
            let row = ruling_row(alloc, game, command.number, &given, over)?;
            Ok(Some(row))
        }
        _ => Ok(None),
    }
}

// The rows of a game after a ruling.
fn ruled_rows<R: Rules>(
    alloc: Global,
    game: u32,
    row: &GameRow<R::End>,
    rows: RulingRows,
    moment: Moment,
) -> Result<Changes, Memory>
    // Seconds below 2^63 are stored exactly.
    ensures { IfOk result (λ changes. (terms : core.Terms) (new : Game R.Move) → row.now.left_first < 2 ^ 63 →
        row.now.left_second < 2 ^ 63 → IsRowOf R.rules terms new row.now →
        Puts changes moment (record no_rows {
          games = game_row R.rules terms game new ∷ [];
          rulings = ruling_list rows.ruling;
          scores = score_list rows.scores;
        })) }
{
    let mut changes = changes_at(alloc, moment);
    changes.games.push(record_of::<R>(alloc, game, row)?)?;
    changes.rulings = listed_rulings(alloc, rows.ruling)?;
    changes.scores = listed_scores(alloc, rows.scores)?;
    Ok(changes)
}

fn listed_rulings(alloc: Global, ruling: Option<RulingRow>) -> Result<Vec<RulingRow>, Memory>
    ensures { IfOk result (λ rows. map ruling_cells rows.items ≡ ruling_list ruling) }
{
    let mut rows = Vec::new(alloc);
    match ruling {
        Some(row) => rows.push(row)?,
        None => {}
    }
    Ok(rows)
}

/// Returns the effect of a decision on a ruling: the game's row, that of the ruling, and the scores if the result
/// changes; no rows if it was repeated or refused.
///
/// # Errors
///
/// `Memory` if out of memory.
pub fn put_ruling<R: Rules>(
    alloc: Global,
    game: u32,
    shown: Decision<R>,
    rows: RulingRows,
    moment: Moment,
) -> Result<CommandEffect, Memory>
    ensures acts { IfOk result IsWhole }
    ensures step { IfOk result (λ d. (terms : core.Terms) (old : Game R.Move) (was : given_rows.GameRow R.End)
        (who : Caller) (number : ℕ) (ruling : Ruling) (table : List Row) → IsTrue (is_budget terms.budget) →
        IsTrue (is_increment terms.increment) → IsLegalGame R.rules terms old → IsRowOf R.rules terms old was →
        IsConcluded R.rules terms old (by_officer who (ruling_step R.rules old number ruling moment)) shown →
        HasRulingRow game old ruling moment (by_officer who (ruling_step R.rules old number ruling moment))
        rows.ruling → AreScoresRuled table was shown rows.scores →
        IsRuledIn R.rules terms game moment table old
        (by_officer who (ruling_step R.rules old number ruling moment)) d) }
{
    let (row, answer) = match shown {
        Decision::Accepted {
            row,
            made: _,
            answer,
        } => (row, answer),
        Decision::Repeated(answer) => return Ok(without_changes(Outcome::Repeated(answer))),
        Decision::Refused(refusal) => return Ok(without_changes(Outcome::Refused(refusal))),
    };
    let changes = ruled_rows::<R>(alloc, game, &row, rows, moment)?;
    Ok(CommandEffect {
        outcome: Outcome::Accepted(answer),
        changes: Some(changes),
    })
}
