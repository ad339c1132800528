//! The cells of a cross table.

ghost use Rattle.std.specs.Prelude.{◌≡◌, ◌==◌, List, IfOk, map};
ghost use Rattle.std.specs.List.{filter};
ghost use Rattle.std.specs.Option.{option_map};
ghost use Rattle.cross_tables.specs.declared.sums.OpponentScore.{OpponentScore};
ghost use Rattle.cross_tables.specs.Cells.{cell_of, points_cell, row_of};

use crate::standings::{Standing, Standings};
use crate::sums::OpponentScore;
use memory::Memory;
use std::alloc::Global;
use std::fmt;

/// A cell in a member's line: the result against the member of that column.
#[derive(Clone, Copy, Debug, PartialEq, Eq)]
pub enum Cell {
    /// The column of the member itself.
    Oneself,
    /// The two members have no finished game.
    Unplayed,
    /// The points that the member scored against the other one.
    Points(u32),
}

impl fmt::Display for Cell {
    ghost use Rattle.std.specs.Prelude.{Some};
    ghost use Rattle.cross_tables.specs.Cells.{cell_text};

    ghost output = { λ cell. Some (cell_text cell) };

    fn fmt<W: fmt::Write>(&self, f: &mut fmt::Formatter<W>) -> fmt::Result {
        match self {
            Cell::Oneself => f.write_str("-"),
            Cell::Unplayed => f.write_str("."),
            Cell::Points(points) => write!(f, "{points}"),
        }
    }
}

// The cell of a score row, or `Unplayed` if there is none.
fn points_cell(row: Option<&OpponentScore>) -> Cell
    ensures { result ≡ points_cell (option_map (λ r. r.now) row.entry) }
{
    match row {
        Some(row) => Cell::Points(row.sums.points),
        None => Cell::Unplayed,
    }
}

// The score row of a member against another one.
fn row_of<'a>(member: u32, other: u32, rows: &'a [OpponentScore]) -> Option<&'a OpponentScore>
    ensures { option_map (λ r. r.now) result ≡ row_of rows.now member other }
{
    rows.iter()
        .find(|row| row.member == member && row.opponent == other)
}

/// The cell of a member against another one, from the score rows of the event.
pub fn cell_of(member: u32, other: u32, rows: &[OpponentScore]) -> Cell
    ensures { result ≡ cell_of rows.now member other }
{
    if member == other {
        return Cell::Oneself;
    }
    points_cell(row_of(member, other, rows))
}

// The cells of a member against each of `others`.
fn cells_against(
    alloc: Global,
    member: u32,
    others: &[Standing],
    rows: &[OpponentScore],
) -> Result<Vec<Cell>, Memory>
    ensures { IfOk result (λ cells. cells.items ≡ map (λ s. cell_of rows.now member s.member) others.now) }
{
    Ok(
        others
            .iter()
            .map(|s| cell_of(member, s.member, rows))
            .collect(alloc)?,
    )
}

/// The cells of a member against each member of the table, in the order of places.
///
/// # Errors
///
/// `Memory` if out of memory.
///
/// # Guarantees
///
/// `own`: rows of other members than this one need not be passed.
pub fn cells_of(
    alloc: Global,
    member: u32,
    standings: &Standings,
    rows: &[OpponentScore],
) -> Result<Vec<Cell>, Memory>
    ensures cells { IfOk result (λ cells. cells.items ≡ map (λ s. cell_of rows.now member s.member) standings.now) }
    // The member's own rows are enough.
    ensures own { IfOk result (λ cells. (all : List OpponentScore) →
        rows.now ≡ filter (λ row. row.member == member) all →
        cells.items ≡ map (λ s. cell_of all member s.member) standings.now) }
{
    let cells = cells_against(alloc, member, standings.as_slice(), rows)?;
    Ok(cells)
}
