//! The text lines of a cross table.

ghost use Rattle.std.specs.Prelude.{◌≡◌, ◌++◌, OnOk, IfOk, string_bytes};
ghost use Rattle.cross_tables.specs.Lines.{filler, right_in, left_in, number_in};
ghost use Rattle.cross_tables.specs.Lines.{sums_text, cells_text, header_text, line_text};
ghost use Rattle.cross_tables.specs.Cells.{cell_text};

use crate::cells::Cell;
use crate::sums::ScoreTotals;
use memory::Memory;
use std::alloc::Global;

// Spaces that pad a text to a width.
#[tactic(auto, unfolding(crate::specs::Lines::filler))]
fn filler(alloc: Global, width: usize, text: &str) -> Result<String, Memory>
    ensures { IfOk result (λ blanks. string_bytes blanks ≡ filler width text.now) }
{
    Ok(" ".repeat(alloc, width.saturating_sub(text.len()))?)
}

// Appends a right-aligned text.
fn push_right(alloc: Global, line: &mut String, width: usize, text: &str) -> Result<(), Memory>
    ensures { OnOk result (string_bytes line.new ≡ string_bytes line.old ++ right_in width text.now) }
{
    let blanks = filler(alloc, width, text)?;
    line.push_str(blanks.as_str())?;
    line.push_str(text)?;
    Ok(())
}

// Appends a left-aligned text.
fn push_left(alloc: Global, line: &mut String, width: usize, text: &str) -> Result<(), Memory>
    ensures { OnOk result (string_bytes line.new ≡ string_bytes line.old ++ left_in width text.now) }
{
    let blanks = filler(alloc, width, text)?;
    line.push_str(text)?;
    line.push_str(blanks.as_str())?;
    Ok(())
}

// Appends a right-aligned number.
fn push_number(alloc: Global, line: &mut String, width: usize, number: u64) -> Result<(), Memory>
    ensures { OnOk result (string_bytes line.new ≡ string_bytes line.old ++ number_in width number) }
{
    let digits = format!(in alloc; "{number}")?;
    push_right(alloc, line, width, digits.as_str())
}

// Appends points, games, wins, draws and losses.
fn push_sums(alloc: Global, line: &mut String, sums: &ScoreTotals) -> Result<(), Memory>
    ensures { OnOk result (string_bytes line.new ≡ string_bytes line.old ++ sums_text sums.now) }
{
    push_number(alloc, line, 6, u64::from(sums.points))?;
    push_number(alloc, line, 6, sums.games())?;
    push_number(alloc, line, 6, u64::from(sums.wins))?;
    push_number(alloc, line, 6, u64::from(sums.draws))?;
    push_number(alloc, line, 6, u64::from(sums.losses))?;
    Ok(())
}

fn push_cell(alloc: Global, line: &mut String, cell: &Cell) -> Result<(), Memory>
    ensures { OnOk result (string_bytes line.new ≡ string_bytes line.old ++ right_in 6 (cell_text cell.now)) }
{
    let text = format!(in alloc; "{cell}")?;
    push_right(alloc, line, 6, text.as_str())
}

fn push_cells(alloc: Global, line: &mut String, cells: &[Cell]) -> Result<(), Memory>
    ensures { OnOk result (string_bytes line.new ≡ string_bytes line.old ++ cells_text cells.now) }
{
    for cell in cells {
        push_cell(alloc, line, cell)?;
    }
    Ok(())
}

/// The first line of an event's cross table.
///
/// # Errors
///
/// `Memory` if out of memory.
pub fn header(alloc: Global, event: &str) -> Result<String, Memory>
    ensures { IfOk result (λ text. string_bytes text ≡ header_text event.now) }
{
    Ok(format!(in alloc; "Event {event}")?)
}

/// The line of a member: place (from 1), name, totals, and a cell for each member of the table.
///
/// # Errors
///
/// `Memory` if out of memory.
pub fn line(
    alloc: Global,
    place: u64,
    name: &str,
    sums: &ScoreTotals,
    cells: &[Cell],
) -> Result<String, Memory>
    ensures { IfOk result (λ text. string_bytes text ≡ line_text place name.now sums.now cells.now) }
{
    let mut line = String::new(alloc);
    push_number(alloc, &mut line, 3, place)?;
    line.push_str(" ")?;
    push_left(alloc, &mut line, 24, name)?;
    push_sums(alloc, &mut line, sums)?;
    push_cells(alloc, &mut line, cells)?;
    Ok(line)
}
