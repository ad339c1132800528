//! Rows of the positions of a game: repetition count and first ply.

ghost use Rattle.std.specs.Prelude.{◌≡◌, ◌≤◌, ◌<◌, ◌+◌, ◌^◌, ℕ, [], ◌∷◌, pos, length, IfOk, Option, Some, None};
ghost use Rattle.std.specs.Prelude.{string_bytes};
ghost use Rattle.std.specs.Option.{option_map};
ghost use Rattle.club_rules.specs.Line.{IsLegalLine, times_stood, FirstStands};
ghost use Rattle.club_core.specs.Game.{Entry, Game, moves_of, last_position};
ghost use Rattle.store_tables.specs.Cells.{seen_cells};
ghost use Rattle.club_rows.specs.Seen.{seen_row, seen_rows};
ghost use Rattle.club_rows.specs.internal.Seen.{IsSeenRow, IsFound};
ghost use Rattle.club_rows.specs.Tables.{with_entry};

use crate::tally::Occurrences;
use club_rules::{Memory, Rules};
use std::alloc::Global;
use store_tables::SeenRow;

// The row of a position that occurs for the first time.
fn seen_once(game: u32, position: String, ply: u32) -> SeenRow
    ensures { seen_cells result ≡ seen_row game (string_bytes position) 1 ply }
{
    SeenRow {
        game: i64::from(game),
        position,
        count: 1,
        first_ply: i64::from(ply),
    }
}

fn one_more(count: i64) -> i64
    ensures { (n : ℕ) → count ≡ pos n → n + 1 < 2 ^ 63 → result ≡ pos (n + 1) }
{
    count.saturating_add(1)
}

// The row of a position that occurred before, with its count incremented.
fn seen_again(game: u32, position: String, found: &SeenRow) -> SeenRow
    ensures { (count first : ℕ) → found.now.count ≡ pos count → count + 1 < 2 ^ 63 → found.now.first_ply ≡ pos first →
        seen_cells result ≡ seen_row game (string_bytes position) (count + 1) first }
{
    SeenRow {
        game: i64::from(game),
        position,
        count: one_more(found.count),
        first_ply: found.first_ply,
    }
}

/// The row of a new game's initial position: count 1, first ply 0.
///
/// # Errors
///
/// `Memory` if out of memory.
pub fn first_seen<R: Rules>(alloc: Global, game: u32) -> Result<SeenRow, Memory>
    ensures { IfOk result (λ row. (seated : Game R.Move) → seated.entries ≡ [] →
        seen_rows R.rules game seated ≡ seen_cells row ∷ []) }
{
    let position = R::write_position(alloc, &R::start())?;
    let row = seen_once(game, position, 0);
    Ok(row)
}

/// The row of the position after a ply: `found` with its count incremented, or a new row if the position is new.
///
/// # Errors
///
/// `Memory` if out of memory.
pub fn seen_after<R: Rules>(
    alloc: Global,
    game: u32,
    position: &str,
    found: Option<&SeenRow>,
    ply: u32,
) -> Result<SeenRow, Memory>
    ensures { IfOk result (λ row. (old : Game R.Move) (e : Entry R.Move) →
        position.now ≡ R.rules.write_position (last_position R.rules (with_entry old e)) →
        length old.entries ≤ 600 → ply ≡ length old.entries + 1 →
        IsFound R.rules game old position.now (option_map (λ r. r.now) found.entry) →
        IsSeenRow R.rules game (with_entry old e) position.now (seen_cells row)) }
{
    let text = String::from_str(alloc, position)?;
    match found {
        Some(found) => Ok(seen_again(game, text, found)),
        None => Ok(seen_once(game, text, ply)),
    }
}

// The repetition count; 0 if it is out of range.
fn times_in(row: &SeenRow) -> usize
    ensures { (n : ℕ) → row.now.count ≡ pos n → result ≡ n }
{
    match usize::try_from(row.count) {
        Ok(times) => times,
        Err(_) => 0,
    }
}

// The first ply; 0 if it is out of range.
fn first_ply_in(row: &SeenRow) -> usize
    ensures { (n : ℕ) → row.now.first_ply ≡ pos n → result ≡ n }
{
    match usize::try_from(row.first_ply) {
        Ok(ply) => ply,
        Err(_) => 0,
    }
}

/// The repetition count and first ply in a row.
///
/// # Guarantees
///
/// For the row of a game's last position these are the numbers by which the rules judge repetition.
pub fn occurrences_in<R: Rules>(row: &SeenRow) -> Occurrences
    ensures { (id : ℕ) (game : Game R.Move) → IsLegalLine R.rules R.rules.start (moves_of game) →
        IsSeenRow R.rules id game (R.rules.write_position (last_position R.rules game)) (seen_cells row.now) →
        (result.times ≡ times_stood R.rules R.rules.start (moves_of game))
        × FirstStands R.rules R.rules.start (moves_of game) result.first_ply }
{
    Occurrences {
        times: times_in(row),
        first_ply: first_ply_in(row),
    }
}
