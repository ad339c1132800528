//! Parses the rows of scores of one event.

ghost use Rattle.std.specs.Prelude.{◌≡◌, true, map, IfOk, IfSome};
ghost use Rattle.std.specs.List.{AllByRecursion};
ghost use Rattle.sqlite_trees.specs.Tree.{IsAscending};
ghost use Rattle.store_tables.specs.internal.Cells.{score_cells};
ghost use Rattle.club_answers.specs.CrossTable.{scored_row, ComesBefore};
ghost use Rattle.club_answers.specs.internal.CrossTable.{AreSumsOf};

use club_reads::LookupFault;
use club_rows::numbers::id;
use cross_tables::{OpponentScore, ScoreTotals};
use std::alloc::Global;
use store_tables::ScoreRow;

// The sums of a row; `None` if one is out of the range of 32 bits.
fn sums_of(row: &ScoreRow) -> Option<ScoreTotals>
    ensures { IfSome result (λ sums. AreSumsOf row.now sums) }
{
    Some(ScoreTotals {
        points: id(row.points)?,
        wins: id(row.wins)?,
        draws: id(row.draws)?,
        losses: id(row.losses)?,
    })
}

// The score of a row; `None` if it is of another event or a number is out of the range of 32 bits.
fn scored_of(row: &ScoreRow, event: u32) -> Option<OpponentScore>
    ensures { IfSome result (λ scored. score_cells row.now ≡ scored_row event scored) }
{
    if id(row.event)? != event {
        return None;
    }
    Some(OpponentScore {
        member: id(row.member)?,
        opponent: id(row.opponent)?,
        sums: sums_of(row)?,
    })
}

// Order by member, then by opponent.
fn comes_before(one: &OpponentScore, other: &OpponentScore) -> bool
    ensures { result ≡ true → ComesBefore one.now other.now }
{
    if one.member == other.member {
        return one.opponent < other.opponent;
    }
    one.member < other.member
}

// Whether `next` comes after all of `scores`, which are sorted.
fn comes_last(scores: &[OpponentScore], next: &OpponentScore) -> bool
    ensures { result ≡ true → IsAscending ComesBefore scores.now →
        AllByRecursion (λ scored. ComesBefore scored next.now) scores.now }
{
    match scores.last() {
        Some(last) => comes_before(last, next),
        None => true,
    }
}

/// The scores of these rows of one event, sorted by member, then by opponent.
///
/// # Errors
///
/// - `LookupFault::Store`: a row is of another event or out of order, or a number exceeds 32 bits.
/// - `LookupFault::Memory`: out of memory.
pub(crate) fn scored_rows(
    alloc: Global,
    rows: &[ScoreRow],
    event: u32,
) -> Result<Vec<OpponentScore>, LookupFault>
    ensures rows { IfOk result (λ scores. map score_cells rows.now ≡ map (scored_row event) scores.items) }
    ensures order { IfOk result (λ scores. IsAscending ComesBefore scores.items) }
{
    let mut scores = Vec::new(alloc);
    for row in rows {
        let Some(scored) = scored_of(row, event) else {
            return Err(LookupFault::Store);
        };
        if !comes_last(&scores, &scored) {
            return Err(LookupFault::Store);
        }
        scores.push(scored)?;
    }
    Ok(scores)
}
