//! Errors of opening: why a database is not a club's.

use std::error::Error;
use std::fmt;
use store_tables::Table;

/// Why a database was not accepted as a club's.
#[derive(Debug, Clone, Copy, PartialEq, Eq, Drop)]
pub enum OpenFault {
    /// A table or column of a club is missing, or a table that must be created exists already.
    Foreign,
    /// The tables have the schema with this number, which is not accepted.
    Schema(i64),
    /// This table has rows that no legal club has.
    Damaged(Table),
    /// A call of the database failed.
    Store,
    /// Out of memory.
    Memory,
}

/// Writes the number, the name and its argument, separated by spaces: `70 Foreign`, `72 Damaged games`.
impl fmt::Display for OpenFault {
    ghost use Rattle.std.specs.Prelude.{Some};
    ghost use Rattle.club_check.specs.FaultText.{open_fault_text};

    ghost output = { λ fault. Some (open_fault_text fault) };

    fn fmt<W: fmt::Write>(&self, f: &mut fmt::Formatter<W>) -> fmt::Result {
        match self {
            OpenFault::Foreign => f.write_str("70 Foreign"),
            OpenFault::Schema(number) => write!(f, "71 Schema {number}"),
            OpenFault::Damaged(table) => write!(f, "72 Damaged {table}"),
            OpenFault::Store => f.write_str("73 Store"),
            OpenFault::Memory => f.write_str("75 Memory"),
        }
    }
}

impl Error for OpenFault {}
