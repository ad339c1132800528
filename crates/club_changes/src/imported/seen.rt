//! The rows of an imported game's positions.

ghost use Rattle.std.specs.Prelude.{◌≡◌, ◌<◌, ◌+◌, ◌++◌, ◌^◌, map, length, drop, IfOk, OnOk, string_bytes};
ghost use Rattle.std.specs.List.{list_any};
ghost use Rattle.std.specs.Str.{bytes_eq};
ghost use Rattle.club_rules.specs.Line.{IsLegalLine, positions};
ghost use Rattle.club_rows.specs.Seen.{times_in, seen_row, rows_from, rows_of_texts};
ghost use Rattle.store_tables.specs.Cells.{seen_cells};
ghost use Rattle.club_changes.specs.internal.MoveTexts.{bytes_of};

use club_rows::numbers::to_i64;
use club_rules::{Memory, Rules};
use std::alloc::Global;
use store_tables::SeenRow;

// The notation of each position: the initial one, then one after each ply.
fn texts_of<R: Rules>(alloc: Global, moves: &[R::Move]) -> Result<Vec<String>, Memory>
    requires { IsLegalLine R.rules R.rules.start moves.now }
    ensures { IfOk result (λ texts. bytes_of texts.items
        ≡ map R.rules.write_position (positions R.rules R.rules.start moves.now)) }
{
    let mut texts = Vec::new(alloc);
    let mut position = R::start();
    texts.push(R::write_position(alloc, &position)?)?;
    for i in 0..moves.len() {
        position = R::play(&position, &moves[i]);
        texts.push(R::write_position(alloc, &position)?)?;
    }
    Ok(texts)
}

fn times_in(texts: &[String], text: &str) -> usize
    ensures { result ≡ times_in (bytes_of texts.now) text.now }
{
    texts.iter().filter(|t| text == t.as_str()).count()
}

fn stands_in(texts: &[String], text: &str) -> bool
    ensures { result ≡ list_any (λ t. bytes_eq text.now (string_bytes t)) texts.now }
{
    texts.iter().any(|t| text == t.as_str())
}

fn seen_row(game: u32, text: &String, count: usize, ply: usize) -> Result<SeenRow, Memory>
    requires count { count < 2 ^ 63 }
    requires ply { ply < 2 ^ 63 }
    ensures { IfOk result (λ row. seen_cells row ≡ seen_row game (string_bytes text.now) count ply) }
{
    Ok(SeenRow {
        game: i64::from(game),
        position: text.clone()?,
        count: to_i64(count as u64),
        first_ply: to_i64(ply as u64),
    })
}

// Adds the row of the position after a ply, unless it occurred before.
fn add_text(rows: &mut Vec<SeenRow>, game: u32, texts: &[String], ply: usize) -> Result<(), Memory>
    requires { ply < length texts.now }
    ensures { OnOk result (map seen_cells rows.new.items
        ++ rows_from game (bytes_of texts.now) (ply + 1) (drop (ply + 1) (bytes_of texts.now))
        ≡ map seen_cells rows.old.items ++ rows_from game (bytes_of texts.now) ply (drop ply (bytes_of texts.now))) }
{
    let text = &texts[ply];
    if stands_in(&texts[..ply], text.as_str()) {
        return Ok(());
    }
    let times = times_in(texts, text.as_str());
    let row = seen_row(game, text, times, ply)?;
    rows.push(row)?;
    Ok(())
}

// One row for each distinct position.
fn rows_of_texts(alloc: Global, game: u32, texts: &[String]) -> Result<Vec<SeenRow>, Memory>
    ensures { IfOk result (λ rows. map seen_cells rows.items ≡ rows_of_texts game (bytes_of texts.now)) }
{
    let mut rows = Vec::new(alloc);
    for ply in 0..texts.len() {
        add_text(&mut rows, game, texts, ply)?;
    }
    Ok(rows)
}

/// Returns one row for each distinct position of a legal line.
///
/// # Errors
///
/// `Memory` if out of memory.
pub fn seen_rows<R: Rules>(
    alloc: Global,
    game: u32,
    moves: &[R::Move],
) -> Result<Vec<SeenRow>, Memory>
    requires { IsLegalLine R.rules R.rules.start moves.now }
    ensures { IfOk result (λ rows. map seen_cells rows.items
        ≡ rows_of_texts game (map R.rules.write_position (positions R.rules R.rules.start moves.now))) }
{
    let texts = texts_of::<R>(alloc, moves)?;
    let rows = rows_of_texts(alloc, game, &texts)?;
    Ok(rows)
}
