//! Reads the rows of a table, all or by their first column, as row types.
//! Functions that return `ReadFault` serve a database that is not yet checked; those with `TableFault` an open club.

ghost use Rattle.std.specs.Prelude.{◌≡◌, ◌≢◌, ◌⊎◌, true, false, IsTrue, IfOk, IfErr, OnOk, is_ok, All, [], ◌∷◌, map};
ghost use Rattle.std.specs.Prelude.{length, pos};
ghost use Rattle.std.specs.List.{AllByRecursion};
ghost use Rattle.std.specs.List.Sorted.{IsSorted};
ghost use Rattle.sqlite.specs.Order.{column};
ghost use Rattle.sqlite.specs.State.{HasCleanDisk, IsUnchanged};
ghost use Rattle.sqlite.specs.Held.{state};
ghost use Rattle.sqlite.specs.declared.error.Error.TheVariants.{QueryReturnedNoRows};
ghost use Rattle.sqlite.specs.declared.types.Value.TheVariants.{Int};
ghost use Rattle.store_tables.specs.Changes.{HaveSame};
ghost use Rattle.store_tables.specs.Content.{AreApart, cells};
ghost use Rattle.store_tables.specs.internal.Contents.{AreThose};
ghost use Rattle.store_tables.specs.Over.{HasRowsIn};
ghost use Rattle.store_tables.specs.Placed.{HasTableAt, club_trees};
ghost use Rattle.store_tables.specs.internal.Queries.{by_others};
ghost use Rattle.store_tables.specs.Reading.{Reads};
ghost use Rattle.store_tables.specs.internal.Reading.{AreIds, by_columns, IsNoInput, ReturnsRows, TellsIds};
ghost use Rattle.store_sql.specs.internal.Read.{AreCounted, AreReadOf, IsLast, IsReadAs, Blames, BeginWithPlaces};
ghost use Rattle.store_sql.specs.internal.Read.{was_read};
ghost use Rattle.store_sql.specs.Read.{beginning_with};

use crate::fault::{ReadFault, TableFault, is_refused};
use crate::texts::Select;
use sqlite::{Alter, Connection, Error, Row, params};
use std::alloc::Global;
use store_tables::{RowError, TableRow, check_ids, parse_all};

/// Returns the values of all rows of a table, in the order of its key.
///
/// # Errors
///
/// `sqlite::Error` if a call of the database fails.
pub fn show_all<T: Select, S: Alter>(conn: &mut Connection<S>) -> Result<Vec<Row>, Error>
    ensures reads { Reads (is_ok result) (state S.Store conn.old) (state S.Store conn.new) }
    ensures rows { HasCleanDisk (state S.Store conn.new) → IfOk result (λ rows.
        HasTableAt (state S.Store conn.old).now.schema T.which →
        ReturnsRows T.table T.width rows.items (club_trees (state S.Store conn.old).now) (state S.Store conn.old)
        (state S.Store conn.new)) }
    ensures known { HasCleanDisk (state S.Store conn.new) → IfErr result (λ e.
        HasTableAt (state S.Store conn.old).now.schema T.which → IsNoInput e) }
{
    conn.query_all(T::table().all(), &[])
}

/// Whether a query for one row found none.
fn has_no_row(error: &Error) -> bool
    ensures none { result ≡ true → error.now ≡ QueryReturnedNoRows }
    ensures other { result ≡ false → error.now ≢ QueryReturnedNoRows }
{
    match error {
        Error::QueryReturnedNoRows => true,
        _ => false,
    }
}

/// Returns the values of the row with the greatest first column, if the table has a row.
fn show_last<T: Select, S: Alter>(conn: &mut Connection<S>) -> Result<Option<Row>, Error>
    ensures reads { Reads (is_ok result) (state S.Store conn.old) (state S.Store conn.new) }
    ensures last { HasCleanDisk (state S.Store conn.new) → IfOk result (λ row. (content : _) →
        HasRowsIn T.since content (state S.Store conn.old) → IsLast (content T.table.tree) row) }
    // A table without rows is no error.
    ensures present { IfErr result (λ error. error ≢ QueryReturnedNoRows) }
{
    match conn.query_row(T::table().last(), &[]) {
        Ok(row) => Ok(Some(row)),
        Err(error) => {
            if has_no_row(&error) {
                Ok(None)
            } else {
                Err(error)
            }
        }
    }
}

/// Returns the rowids of a table in ascending order.
fn show_ids<T: Select, S: Alter>(conn: &mut Connection<S>) -> Result<Vec<Row>, Error>
    ensures reads { Reads (is_ok result) (state S.Store conn.old) (state S.Store conn.new) }
    ensures ids { HasCleanDisk (state S.Store conn.new) → IfOk result (λ rows.
        HasTableAt (state S.Store conn.old).now.schema T.which →
        TellsIds (club_trees (state S.Store conn.old).now T.table.tree) rows.items (state S.Store conn.old)
        (state S.Store conn.new)) }
    ensures known { HasCleanDisk (state S.Store conn.new) → IfErr result (λ e.
        HasTableAt (state S.Store conn.old).now.schema T.which → IsNoInput e) }
    ensures number { HasCleanDisk (state S.Store conn.new) → IfOk result (λ rows.
        HasTableAt (state S.Store conn.old).now.schema T.which →
        length rows.items ≡ length (club_trees (state S.Store conn.old).now T.table.tree)) }
{
    conn.query_all(T::table().ids(), &[])
}

/// Returns the values of the rows whose first column is `first`.
fn show_by_first<T: Select, S: Alter>(
    conn: &mut Connection<S>,
    first: &i64,
) -> Result<Vec<Row>, Error>
    ensures reads { Reads (is_ok result) (state S.Store conn.old) (state S.Store conn.new) }
    ensures rows { HasCleanDisk (state S.Store conn.new) → IfOk result (λ rows. (content : _) →
        HasRowsIn T.since content (state S.Store conn.old) →
        AreThose (0 ∷ []) (Int first.now ∷ []) (content T.table.tree) rows.items ×
        IsSorted (by_others T.width) rows.items) }
    ensures told { HasCleanDisk (state S.Store conn.new) → IfOk result (λ rows.
        HasTableAt (state S.Store conn.old).now.schema T.which →
        AreReadOf T.table T.width first.now rows.items (state S.Store conn.old) (state S.Store conn.new)) }
    ensures known { HasCleanDisk (state S.Store conn.new) → IfErr result (λ e.
        HasTableAt (state S.Store conn.old).now.schema T.which → IsNoInput e) }
{
    conn.query_all(T::table().by_first(), params![first])
}

/// Parses rows of a checked club. A wrong type means that the file was changed meanwhile: `Store`.
pub(crate) fn parse_shown_rows<T: TableRow>(
    alloc: Global,
    shown: &[Row],
) -> Result<Vec<T>, TableFault>
    ensures rows { IfOk result (λ found. shown.now ≡ map T.cells found.items) }
{
    match parse_all(alloc, shown) {
        Ok(found) => Ok(found),
        Err(RowError::WrongType) => Err(TableFault::Store),
        Err(RowError::Memory) => Err(TableFault::Memory),
    }
}

/// A rejected statement names a table or column that is missing.
fn failed(error: Error) -> ReadFault
    ensures store { IsNoInput error → result ≡ ReadFault.Store }
    ensures parse_rows { result ≢ ReadFault.WrongType }
{
    if is_refused(&error) {
        ReadFault::Missing
    } else {
        ReadFault::Store
    }
}

fn unread(why: RowError) -> ReadFault
    ensures mistyped { why ≡ RowError.WrongType → result ≡ ReadFault.WrongType }
    ensures memory { why ≡ RowError.Memory → result ≡ ReadFault.Memory }
{
    match why {
        RowError::WrongType => ReadFault::WrongType,
        RowError::Memory => ReadFault::Memory,
    }
}

/// Parses rows of a database that is not yet checked.
fn parse_rows<T: TableRow>(alloc: Global, shown: &[Row]) -> Result<Vec<T>, ReadFault>
    ensures rows { IfOk result (λ found. shown.now ≡ map T.cells found.items) }
    ensures reason_is_right { IfErr result (λ e. (e ≡ ReadFault.Memory) ⊎ ((e ≡ ReadFault.WrongType) ×
        (¬ All T.IsTyped shown.now))) }
{
    match parse_all(alloc, shown) {
        Ok(found) => Ok(found),
        Err(why) => Err(unread(why)),
    }
}

/// Checks that the rowids are distinct integers.
fn identified(alloc: Global, shown: &[Row]) -> Result<(), ReadFault>
    ensures apart { OnOk result (AreIds shown.now) }
    ensures reason_is_right { IfErr result (λ e. (e ≡ ReadFault.Memory) ⊎ ((e ≡ ReadFault.WrongType) ×
        (IsSorted (by_columns 1) shown.now → ¬ AreIds shown.now))) }
{
    match check_ids(alloc, shown) {
        Ok(()) => Ok(()),
        Err(why) => Err(unread(why)),
    }
}

/// Checks the rowids of a table and returns the number of its rows.
///
/// # Errors
///
/// - `Missing` if SQLite rejects the statement.
/// - `WrongType` if a rowid is no integer or occurs twice.
/// - `Store` if a call of the database fails.
/// - `Memory` if out of memory.
pub fn check_rowids<T: Select, S: Alter>(
    alloc: Global,
    conn: &mut Connection<S>,
) -> Result<usize, ReadFault>
    ensures reads { Reads (was_read result) (state S.Store conn.old) (state S.Store conn.new) }
    ensures counted { HasCleanDisk (state S.Store conn.new) → IfOk result (λ count.
        HasTableAt (state S.Store conn.old).now.schema T.which →
        AreCounted T.table.tree count (state S.Store conn.old) (state S.Store conn.new)) }
    ensures reason_is_right { HasCleanDisk (state S.Store conn.new) → IfErr result (λ e.
        HasTableAt (state S.Store conn.old).now.schema T.which →
        Blames T.table T.IsTyped (state S.Store conn.old) e) }
    ensures apart { HasCleanDisk (state S.Store conn.new) → IfErr result (λ e. e ≡ ReadFault.WrongType →
        HasTableAt (state S.Store conn.old).now.schema T.which →
        ¬ AreApart (club_trees (state S.Store conn.old).now T.table.tree)) }
{
    let ids = match show_ids::<T, S>(conn) {
        Ok(ids) => ids,
        Err(error) => return Err(failed(error)),
    };
    match identified(alloc, &ids) {
        Ok(()) => Ok(ids.len()),
        Err(fault) => Err(fault),
    }
}

/// Checks that a table exists with all of its columns; its rows are not checked.
///
/// # Errors
///
/// - `Missing` if SQLite rejects the statement.
/// - `Store` if a call of the database fails.
pub fn check_columns<T: Select, S: Alter>(conn: &mut Connection<S>) -> Result<(), ReadFault>
    ensures reads { Reads (is_ok result) (state S.Store conn.old) (state S.Store conn.new) }
    ensures same { HasCleanDisk (state S.Store conn.new) → OnOk result (
        HasTableAt (state S.Store conn.old).now.schema T.which →
        IsUnchanged (state S.Store conn.old) (state S.Store conn.new)) }
    ensures reason_is_right { HasCleanDisk (state S.Store conn.new) → IfErr result (λ e.
        HasTableAt (state S.Store conn.old).now.schema T.which → e ≡ ReadFault.Store) }
{
    match show_by_first::<T, S>(conn, &0) {
        Ok(_) => Ok(()),
        Err(error) => Err(failed(error)),
    }
}

/// Checks the rowids of a table and returns all of its rows, in the order of its key.
///
/// # Errors
///
/// - `Missing` if SQLite rejects the statement.
/// - `WrongType` if a rowid is no integer or occurs twice, or a value has another type than its column.
/// - `Store` if a call of the database fails.
/// - `Memory` if out of memory.
pub fn read_all<T: Select, S: Alter>(
    alloc: Global,
    conn: &mut Connection<S>,
) -> Result<Vec<T>, ReadFault>
    ensures reads { Reads (was_read result) (state S.Store conn.old) (state S.Store conn.new) }
    ensures rows { HasCleanDisk (state S.Store conn.new) → IfOk result (λ found.
        HasTableAt (state S.Store conn.old).now.schema T.which →
        IsReadAs T.table T.width (map T.cells found.items) (state S.Store conn.old) (state S.Store conn.new)) }
    ensures reason_is_right { HasCleanDisk (state S.Store conn.new) → IfErr result (λ e.
        HasTableAt (state S.Store conn.old).now.schema T.which →
        Blames T.table T.IsTyped (state S.Store conn.old) e) }
{
    match check_rowids::<T, S>(alloc, conn) {
        Ok(_) => {}
        Err(fault) => return Err(fault),
    }
    let shown = match show_all::<T, S>(conn) {
        Ok(shown) => shown,
        Err(error) => return Err(failed(error)),
    };
    parse_rows(alloc, &shown)
}

/// Returns the rows whose first column is `first`, in the order of the other columns of the key.
///
/// # Errors
///
/// - `Missing` if SQLite rejects the statement.
/// - `WrongType` if a value has another type than its column.
/// - `Store` if a call of the database fails.
/// - `Memory` if out of memory.
pub fn read_by_first<T: Select, S: Alter>(
    alloc: Global,
    conn: &mut Connection<S>,
    first: &i64,
) -> Result<Vec<T>, ReadFault>
    ensures reads { Reads (was_read result) (state S.Store conn.old) (state S.Store conn.new) }
    ensures rows { HasCleanDisk (state S.Store conn.new) → IfOk result (λ found.
        HasTableAt (state S.Store conn.old).now.schema T.which →
        AreReadOf T.table T.width first.now (map T.cells found.items) (state S.Store conn.old)
        (state S.Store conn.new)) }
    ensures reason_is_right { HasCleanDisk (state S.Store conn.new) → IfErr result (λ e.
        HasTableAt (state S.Store conn.old).now.schema T.which →
        Blames T.table T.IsTyped (state S.Store conn.old) e) }
    ensures same { HasCleanDisk (state S.Store conn.new) → IfErr result (λ e. e ≡ ReadFault.WrongType →
        HasTableAt (state S.Store conn.old).now.schema T.which →
        IsUnchanged (state S.Store conn.old) (state S.Store conn.new)) }
    // A value of a wrong type is in one of the rows with this first column.
    ensures untyped { HasCleanDisk (state S.Store conn.new) → IfErr result (λ e. e ≡ ReadFault.WrongType →
        HasTableAt (state S.Store conn.old).now.schema T.which → ¬ AllByRecursion T.IsTyped (beginning_with first.now
        (map (cells T.table) (club_trees (state S.Store conn.old).now T.table.tree)))) }
{
    let shown = match show_by_first::<T, S>(conn, first) {
        Ok(shown) => shown,
        Err(error) => return Err(failed(error)),
    };
    parse_rows(alloc, &shown)
}

/// Returns all rows of a table of an open club, in the order of its key.
///
/// # Errors
///
/// - `Store` if a call of the database fails, or a value has another type than its column.
/// - `Memory` if out of memory.
pub fn list<T: Select, S: Alter>(
    alloc: Global,
    conn: &mut Connection<S>,
) -> Result<Vec<T>, TableFault>
    ensures reads { Reads (is_ok result) (state S.Store conn.old) (state S.Store conn.new) }
    ensures rows { HasCleanDisk (state S.Store conn.new) → IfOk result (λ found. IsTrue T.has_id → (content : _) →
        HasRowsIn T.since content (state S.Store conn.old) →
        BeginWithPlaces (content T.table.tree) → map T.cells found.items ≡ content T.table.tree) }
    ensures same { HasCleanDisk (state S.Store conn.new) → IfOk result (λ found. (content : _) →
        HasRowsIn T.since content (state S.Store conn.old) →
        HaveSame (map T.cells found.items) (content T.table.tree)) }
{
    match show_all::<T, S>(conn) {
        Ok(shown) => parse_shown_rows(alloc, &shown),
        Err(_) => Err(TableFault::Store),
    }
}

/// Returns the rows of an open club whose first column is `first`, in the order of the other columns of the key.
///
/// # Errors
///
/// - `Store` if a call of the database fails, or a value has another type than its column.
/// - `Memory` if out of memory.
///
/// # Guarantees
///
/// If the key is one id, this is the row with that id, or none.
pub fn find_by_first<T: Select, S: Alter>(
    alloc: Global,
    conn: &mut Connection<S>,
    first: &i64,
) -> Result<Vec<T>, TableFault>
    ensures reads { Reads (is_ok result) (state S.Store conn.old) (state S.Store conn.new) }
    ensures rows { HasCleanDisk (state S.Store conn.new) → IfOk result (λ found. (content : _) →
        HasRowsIn T.since content (state S.Store conn.old) →
        AreThose (0 ∷ []) (Int first.now ∷ []) (content T.table.tree) (map T.cells found.items) ×
        IsSorted (by_others T.width) (map T.cells found.items)) }
{
    match show_by_first::<T, S>(conn, first) {
        Ok(shown) => parse_shown_rows(alloc, &shown),
        Err(_) => Err(TableFault::Store),
    }
}

/// The first value of a row, which numbers it from 1 on.
fn place_in(row: &Row) -> Result<usize, TableFault>
    ensures place { IfOk result (λ n. column row.now 0 ≡ Int (pos n)) }
{
    let Ok(id) = row.get::<i64>(0) else {
        return Err(TableFault::Store);
    };
    match usize::try_from(id) {
        Ok(place) => Ok(place),
        Err(_) => Err(TableFault::Store),
    }
}

/// Counts the rows of a table of an open club. Reads the last row alone.
///
/// # Errors
///
/// `Store` if a call of the database fails, or the greatest id is no integer or negative.
///
/// # Guarantees
///
/// `count`: exact for tables whose key is an id, with ids 1, 2, 3 and so on.
pub fn count<T: Select, S: Alter>(conn: &mut Connection<S>) -> Result<usize, TableFault>
    ensures reads { Reads (is_ok result) (state S.Store conn.old) (state S.Store conn.new) }
    ensures count { HasCleanDisk (state S.Store conn.new) → IfOk result (λ n. IsTrue T.has_id → (content : _) →
        HasRowsIn T.since content (state S.Store conn.old) →
        BeginWithPlaces (content T.table.tree) → n ≡ length (content T.table.tree)) }
{
    let Ok(last) = show_last::<T, S>(conn) else {
        return Err(TableFault::Store);
    };
    match last {
        Some(row) => place_in(&row),
        None => Ok(0),
    }
}
