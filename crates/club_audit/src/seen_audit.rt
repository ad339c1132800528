//! Checks the rows of a game's positions.

ghost use Rattle.std.specs.Prelude.{◌≡◌, ◌≤◌, ◌<◌, ◌++◌, ◌∷◌, ◌^◌, ℕ, [], List, pos, true, length, map, IfOk, IfSome};
ghost use Rattle.std.specs.Prelude.{OnOk};
ghost use Rattle.club_core.specs.Events.{Terms};
ghost use Rattle.club_core.specs.Game.{Game};
ghost use Rattle.store_tables.specs.Cells.{move_cells, seen_cells};
ghost use Rattle.club_rows.specs.EachOnce.{AreEachOnce};
ghost use Rattle.club_rows.specs.Seen.{rows_of_texts, seen_rows};
ghost use Rattle.club_audit.specs.internal.SeenAudit.{AreCounted, HasCounted, found_in, texts_in};
ghost use Rattle.club_rows.specs.Tables.{move_rows};
ghost use Rattle.club_rows.specs.internal.Tally.{stood_seldom, stood_then};

use club_rows::tally::Occurrences;
use club_rules::{Memory, Rules};
use std::alloc::Global;
use std::collections::HashMap;
use store_tables::{MoveRow, SeenRow};

// The count of a position if it occurs once more, after that ply.
pub(crate) fn stood_then(found: Option<Occurrences>, ply: usize) -> Occurrences
    ensures { stood_seldom found → result ≡ stood_then found ply }
{
    match found {
        Some(stood) => Occurrences {
            times: stood.times.saturating_add(1),
            first_ply: stood.first_ply,
        },
        None => Occurrences {
            times: 1,
            first_ply: ply,
        },
    }
}

// Counts a position that occurs after that ply.
fn count<'a>(
    counts: &mut HashMap<&'a str, Occurrences>,
    text: &'a str,
    ply: usize,
) -> Result<(), Memory>
    ensures { OnOk result ((texts : List (List ℕ)) → AreCounted texts (found_in counts.old) → length texts ≡ ply →
        ply ≤ 600 → AreCounted (texts ++ text.now ∷ []) (found_in counts.new)) }
{
    let stood = stood_then(counts.get(text).copied(), ply);
    counts.insert(text, stood)?;
    Ok(())
}

// Counts the initial position and the positions in the rows of the moves.
fn counted<'a>(
    alloc: Global,
    start: &'a str,
    moves: &'a [MoveRow],
) -> Result<HashMap<&'a str, Occurrences>, Memory>
    ensures { IfOk result (λ counts. length moves.now ≤ 600 →
        AreCounted (texts_in start.now moves.now) (found_in counts)) }
{
    let mut counts = HashMap::new(alloc);
    count(&mut counts, start, 0)?;
    for (index, row) in moves.iter().enumerate() {
        count(&mut counts, row.position.as_str(), index + 1)?;
    }
    Ok(counts)
}

pub(crate) fn is_number(number: i64, wanted: usize) -> bool
    ensures sound { result ≡ true → number ≡ pos wanted }
    ensures complete { number ≡ pos wanted → result ≡ true }
{
    match usize::try_from(number) {
        Ok(number) => number == wanted,
        Err(_) => false,
    }
}

// Whether the row has this game, and the count and first ply that were found for its position.
fn has_counted(row: &SeenRow, game: u32, found: Option<Occurrences>) -> bool
    ensures sound { result ≡ true → HasCounted game row.now found }
    ensures complete { HasCounted game row.now found → result ≡ true }
{
    match found {
        Some(stood) => {
            row.game == i64::from(game)
                && is_number(row.count, stood.times)
                && is_number(row.first_ply, stood.first_ply)
        }
        None => false,
    }
}

// Whether there is exactly one row for each counted position.
fn are_counted(game: u32, counts: HashMap<&str, Occurrences>, rows: &[SeenRow]) -> bool
    ensures sound { result ≡ true → (texts : List (List ℕ)) → AreCounted texts (found_in counts.entry) →
        AreEachOnce (map seen_cells rows.now) (rows_of_texts game texts) }
    ensures complete { (texts : List (List ℕ)) → AreCounted texts (found_in counts.entry) →
        AreEachOnce (map seen_cells rows.now) (rows_of_texts game texts) → result ≡ true }
{
    let mut left = counts;
    for row in rows {
        let found = left.remove(row.position.as_str());
        if !has_counted(row, game, found) {
            return false;
        }
    }
    left.is_empty()
}

/// Whether there is exactly one correct row for each position of the game with these moves, in any order.
///
/// # Errors
///
/// `Memory` if out of memory.
pub fn are_seen<R: Rules>(
    alloc: Global,
    game: u32,
    moves: &[MoveRow],
    rows: &[SeenRow],
) -> Result<bool, Memory>
    ensures sound { IfOk result (λ are. are ≡ true → (terms : Terms) (played : Game R.Move) →
        length played.entries ≤ 600 → map move_cells moves.now ≡ move_rows R.rules terms game played →
        AreEachOnce (map seen_cells rows.now) (seen_rows R.rules game played)) }
    ensures complete { IfOk result (λ are. (terms : Terms) (played : Game R.Move) →
        length played.entries ≤ 600 → map move_cells moves.now ≡ move_rows R.rules terms game played →
        AreEachOnce (map seen_cells rows.now) (seen_rows R.rules game played) → are ≡ true) }
{
    let start = R::write_position(alloc, &R::start())?;
    let counts = counted(alloc, start.as_str(), moves)?;
    Ok(are_counted(game, counts, rows))
}
