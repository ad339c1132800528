//! Running sums of scores while a sweep ends games one after another.

ghost use Rattle.std.specs.Prelude.{◌≡◌, ◌≢◌, ◌≤◌, ◌^◌, ◌++◌, ◌∷◌, [], List, Some, pos, cond, length, map};
ghost use Rattle.std.specs.Prelude.{IfOk, OnOk, IsErrOf};
ghost use Rattle.std.specs.Option.{option_map};
ghost use Rattle.sqlite.specs.Order.{Row};
ghost use Rattle.store_tables.specs.internal.Cells.{score_cells};
ghost use Rattle.store_tables.specs.Changes.{HaveSame};
ghost use Rattle.club_rows.specs.internal.NextScores.{row_with, sums_found};
ghost use Rattle.club_rows.specs.Scores.{Meeting, meetings, same_pair, score_rows};
ghost use Rattle.club_rows.specs.declared.scores.Pair as given_pair;
ghost use Rattle.club_rows.specs.internal.Pairs.{pair_in, sums_at};
ghost use Rattle.club_changes.specs.internal.Standing.{AreStanding, PutsRows};

use crate::swept::fault::SweepFault;
use club_core::Pairing;
use club_rows::columns::GameColumns;
use club_rows::score_after;
use club_rows::scores::{Pair, ScoreSums, pair_in, pair_of, sums_of};
use club_rules::Memory;
use squares::Score;
use std::alloc::Global;
use std::collections::HashMap;
use store_tables::ScoreRow;

// The row of a pair, if they have met.
fn row_of(standings: &HashMap<Pair, ScoreSums>, pair: Pair) -> Option<ScoreRow>
    ensures { result ≡ option_map (row_with pair) (sums_at standings.now pair) }
{
    match standings.get(&pair).copied() {
        Some(sums) => Some(ScoreRow {
            event: pair.event,
            member: pair.member,
            opponent: pair.opponent,
            points: sums.points,
            wins: sums.wins,
            draws: sums.draws,
            losses: sums.losses,
        }),
        None => None,
    }
}

// Stores the sums of the row for its pair.
fn keep(standings: &mut HashMap<Pair, ScoreSums>, row: &ScoreRow) -> Result<(), Memory>
    ensures { OnOk result ((pair : given_pair.Pair) → sums_at standings.new pair
        ≡ cond (same_pair (pair_in row.now) pair) (Some (sums_found (Some row.now))) (sums_at standings.old pair)) }
{
    standings.insert(pair_in(row), sums_of(Some(row)))?;
    Ok(())
}

/// Collects the sums of all pairs that have a row.
///
/// # Errors
///
/// `Memory` if out of memory.
pub fn standings_of(alloc: Global, rows: &[ScoreRow]) -> Result<HashMap<Pair, ScoreSums>, Memory>
    ensures { IfOk result (λ standings. (all : List Row) → HaveSame (map score_cells rows.now) all →
        AreStanding (λ pair. sums_at standings pair) all) }
{
    let mut standings = HashMap::new(alloc);
    for row in rows {
        keep(&mut standings, row)?;
    }
    Ok(standings)
}

// Stores the sums of the row, and adds it to the rows to upsert.
fn put(
    standings: &mut HashMap<Pair, ScoreSums>,
    changed: &mut Vec<ScoreRow>,
    row: ScoreRow,
) -> Result<(), Memory>
    ensures sums { OnOk result ((pair : given_pair.Pair) → sums_at standings.new pair
        ≡ cond (same_pair (pair_in row) pair) (Some (sums_found (Some row))) (sums_at standings.old pair)) }
    ensures more { OnOk result (changed.new.items ≡ changed.old.items ++ row ∷ []) }
{
    keep(standings, &row)?;
    changed.push(row)?;
    Ok(())
}

/// Adds one ended game: stores both players' new sums, and adds their rows to `changed`.
///
/// # Errors
///
/// - `InconsistentRows` if a sum overflows.
/// - `Memory` if out of memory.
///
/// # Guarantees
///
/// `unfit`: a sum overflows only after at least 2^61 results.
pub fn put_scores(
    standings: &mut HashMap<Pair, ScoreSums>,
    changed: &mut Vec<ScoreRow>,
    stored: &GameColumns<'_>,
    score: Score,
) -> Result<(), SweepFault>
    ensures puts { OnOk result ((before after : List Meeting) → stored.now.first ≢ stored.now.second →
        AreStanding (λ pair. sums_at standings.old pair) (score_rows (before ++ after)) →
        PutsRows (score_rows (before ++ after)) (score_rows (before ++
        (meetings (pos stored.now.event) (pos stored.now.first) (pos stored.now.second) (Some score) ++ after)))
        (λ pair. sums_at standings.new pair) changed.old.items changed.new.items) }
    ensures unfit { IsErrOf result SweepFault.InconsistentRows → (ms : List Meeting) →
        AreStanding (λ pair. sums_at standings.old pair) (score_rows ms) → 2 ^ 61 ≤ length ms }
{
    let firsts_pair = pair_of(stored.event, stored.first, stored.second);
    let firsts = row_of(standings, firsts_pair);
    let seconds_pair = pair_of(stored.event, stored.second, stored.first);
    let seconds = row_of(standings, seconds_pair);
    let pairing = Pairing {
        event: stored.event,
        first: stored.first,
        second: stored.second,
    };
    match score_after(pairing, Some(score), firsts.as_ref(), seconds.as_ref()) {
        Some(pair) => {
            put(standings, changed, pair.first)?;
            put(standings, changed, pair.second)?;
            Ok(())
        }
        None => Err(SweepFault::InconsistentRows),
    }
}
