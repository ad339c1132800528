//! Checks that sorted rows begin with distinct integers, as a table's rowids do.

ghost use Rattle.std.specs.Prelude.{◌≡◌, ◌<◌, true, false, IfOk, IfErr, OnOk, All, map, length};
ghost use Rattle.std.specs.List.Sorted.{IsSorted};
ghost use Rattle.sqlite_value.specs.declared.value.Value.TheVariants.{Int};
ghost use Rattle.sqlite.specs.Order.{column};
ghost use Rattle.store_tables.specs.declared.parse.RowError.TheVariants.{WrongType};
ghost use Rattle.store_tables.specs.internal.Reading.{AreIds, by_columns};
ghost use Rattle.store_tables.specs.internal.Cells.{Rises, BeginsWithInteger};

use crate::parse::{RowError, read};
use sqlite::Row;
use std::alloc::Global;

fn first_integer(row: &Row) -> Result<i64, RowError>
    ensures shows { IfOk result (λ id. column row.now 0 ≡ Int id) }
    ensures mistyped { IfErr result (λ e. e ≡ WrongType → ¬ BeginsWithInteger row.now) }
{
    if row.column_count() == 0 {
        return Err(RowError::WrongType);
    }
    read(row, 0)
}

fn first_integers(alloc: Global, rows: &[Row]) -> Result<Vec<i64>, RowError>
    ensures shows { IfOk result (λ ids. map (λ r. column r 0) rows.now ≡ map Int ids.items) }
    ensures mistyped { IfErr result (λ e. e ≡ WrongType → ¬ All BeginsWithInteger rows.now) }
{
    let mut ids = Vec::new(alloc);
    'rows: for row in rows {
        let id = first_integer(row)?;
        if ids.push(id).is_err() {
            return Err(RowError::Memory);
        }
    }
    Ok(ids)
}

/// Whether the integers are strictly ascending.
fn rise(ids: &[i64]) -> bool
    ensures all { result ≡ true → Rises ids.now }
    ensures none { result ≡ false → ¬ Rises ids.now }
{
    'ids: for i in 1..ids.len() {
        if ids[i] <= ids[i - 1] {
            return false;
        }
    }
    true
}

/// Checks that rows which a SELECT has sorted begin with distinct integers.
///
/// # Errors
///
/// - `WrongType` if a row does not begin with an integer, or begins with the same integer as the row before it.
/// - `Memory` if out of memory.
///
/// # Guarantees
///
/// `mistyped`: if the rows are sorted by their first column, they are not distinct integers.
pub fn check_ids(alloc: Global, rows: &[Row]) -> Result<(), RowError>
    ensures apart { OnOk result (AreIds rows.now) }
    ensures mistyped { IfErr result (λ e. e ≡ WrongType → IsSorted (by_columns 1) rows.now → ¬ AreIds rows.now) }
{
    let ids = first_integers(alloc, rows)?;
    if rise(&ids) {
        Ok(())
    } else {
        Err(RowError::WrongType)
    }
}
