//! The row of a game that is lost on time.

ghost use Rattle.std.specs.Prelude.{◌≡◌, IfOk};
ghost use Rattle.store_tables.specs.Cells.{game_cells};
ghost use Rattle.club_changes.specs.internal.Ended.{cells_lost};

use club_core::rows::copy_key;
use club_requests::OutsideEnd;
use club_rules::Memory;
use squares::Score;
use std::alloc::Global;
use store_tables::GameTableRow;

/// Returns the game's row with the end `Time` and this score.
///
/// # Errors
///
/// `Memory` if out of memory.
pub fn lost_row(alloc: Global, row: &GameTableRow, score: Score) -> Result<GameTableRow, Memory>
    ensures { IfOk result (λ lost. game_cells lost ≡ cells_lost row.now score) }
{
    let key = copy_key(&row.key)?;
    let end = String::from_str(alloc, OutsideEnd::Time.name())?;
    let result = String::from_str(alloc, score.text())?;
    let position = row.position.clone()?;
    Ok(GameTableRow {
        id: row.id,
        key,
        event: row.event,
        first: row.first,
        second: row.second,
        start: row.start,
        since: row.since,
        plies: row.plies,
        left1: row.left1,
        left2: row.left2,
        offer_side: row.offer_side,
        offer_ply: row.offer_ply,
        end: Some(end),
        result: Some(result),
        position,
        track_a: row.track_a,
        track_b: row.track_b,
    })
}
