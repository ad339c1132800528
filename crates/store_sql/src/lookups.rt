//! Queries for the rows with a given value in a column that need not be UNIQUE.

ghost use Rattle.std.specs.Prelude.{ℕ, [], ◌∷◌, IfOk, is_ok, map};
ghost use Rattle.std.specs.List.Sorted.{IsSorted};
ghost use Rattle.sqlite.specs.Order.{Row as Cells};
ghost use Rattle.sqlite.specs.State.{HasCleanDisk};
ghost use Rattle.sqlite.specs.Held.{state};
ghost use Rattle.sqlite.specs.declared.types.Value.TheVariants.{Null, Int};
ghost use Rattle.store_tables.specs.internal.Contents.{AreThose};
ghost use Rattle.store_tables.specs.internal.Reading.{by_columns};
ghost use Rattle.store_tables.specs.Over.{HasRowsIn};
ghost use Rattle.store_tables.specs.Reading.{Reads};

use crate::fault::TableFault;
use crate::read::parse_shown_rows;
use crate::texts::Select;
use sqlite::{Alter, Connection, Error, Row, params};
use std::alloc::Global;
use store_tables::ChallengeRow;

const CHALLENGES_BY_OTHER: &str =
    "SELECT member, number, event, other, first, state, game FROM challenges WHERE other = ?1 ORDER BY member, number";

/// A query for the rows with a given value in one column, in the order of the key.
pub trait ColumnValue {
    /// The type of the rows.
    type Row: Select;

    // the column and the wanted value; NULL in the columns before it
    ghost column: { ℕ };

    ghost wanted: { Self → Cells };

    /// Runs the query; returns the rows as values.
    ///
    /// # Errors
    ///
    /// `sqlite::Error` if a call of the database fails.
    fn show<S: Alter>(&self, conn: &mut Connection<S>) -> Result<Vec<Row>, Error>
        ensures reads { Reads (is_ok result) (state S.Store conn.old) (state S.Store conn.new) }
        ensures rows { HasCleanDisk (state S.Store conn.new) → IfOk result (λ shown. (content : _) →
            HasRowsIn Self.Row.since content (state S.Store conn.old) →
            AreThose (column ∷ []) (wanted self.now) (content Self.Row.table.tree) shown.items ×
            IsSorted (by_columns Self.Row.width) shown.items) };
}

/// A query for the challenges to the member with this id.
#[derive(Debug, Clone, Copy)]
pub struct ChallengesTo {
    pub member: i64,
}

impl ColumnValue for ChallengesTo {
    type Row = ChallengeRow;

    ghost column = { 3 };

    ghost wanted = { λ q. Null ∷ Null ∷ Null ∷ Int q.member ∷ [] };

    fn show<S: Alter>(&self, conn: &mut Connection<S>) -> Result<Vec<Row>, Error> {
        conn.query_all(CHALLENGES_BY_OTHER, params![self.member])
    }
}

/// Returns the rows of an open club with this value in the column, in the order of the key.
///
/// # Errors
///
/// - `Store` if a call of the database fails, or a value has another type than its column.
/// - `Memory` if out of memory.
///
/// # Guarantees
///
/// `rows`: exactly the rows of the table with this value; `reads`: nothing is written.
pub fn find_by_column<Q: ColumnValue, S: Alter>(
    alloc: Global,
    conn: &mut Connection<S>,
    question: &Q,
) -> Result<Vec<Q::Row>, TableFault>
    ensures reads { Reads (is_ok result) (state S.Store conn.old) (state S.Store conn.new) }
    ensures rows { HasCleanDisk (state S.Store conn.new) → IfOk result (λ found. (content : _) →
        HasRowsIn Q.Row.since content (state S.Store conn.old) →
        AreThose (Q.column ∷ []) (Q.wanted question.now) (content Q.Row.table.tree)
        (map Q.Row.cells found.items) × IsSorted (by_columns Q.Row.width) (map Q.Row.cells found.items)) }
{
    match question.show(conn) {
        Ok(shown) => parse_shown_rows(alloc, &shown),
        Err(_) => Err(TableFault::Store),
    }
}
