//! Faults of reading rows.

ghost use Rattle.std.specs.Prelude.{◌≡◌, true, false};
ghost use Rattle.store_tables.specs.internal.Reading.{IsNoInput};

use sqlite::Error;

/// Why the rows of an open, checked club cannot be read.
#[derive(Debug, Clone, Copy, PartialEq, Eq, Drop)]
pub enum TableFault {
    /// A call of the database failed, or a value has another type than its column.
    Store,
    /// Out of memory, except inside a database call.
    Memory,
}

/// Why the rows of a table cannot be read from a database that is not yet checked.
#[derive(Debug, Clone, Copy, PartialEq, Eq, Drop)]
pub enum ReadFault {
    /// SQLite rejected the statement: the table or one of its columns is missing.
    Missing,
    /// A rowid occurs twice, or a value has another type than its column.
    WrongType,
    /// A call of the database failed.
    Store,
    /// Out of memory, except inside a database call.
    Memory,
}

/// Whether SQLite rejected the SQL statement itself (`SqlInputError`).
pub fn is_refused(error: &Error) -> bool
    ensures known { IsNoInput error.now → result ≡ false }
    ensures other { result ≡ false → IsNoInput error.now }
{
    match error {
        Error::SqlInputError(_) => true,
        _ => false,
    }
}
