//! The state of a script between its lines.

use crate::storage::clubs::{adopt_in_memory, execute_sql};
use crate::storage::courses::CourseStart;
use crate::storage::files::changed_in;
use anyhow::{Result, bail};
use sqlite::{Connection, Files, MemStore};
use sqlite_disk::{Fuse, Memory};
use std::alloc::Global;
use store::Club;

/// The database file and the log of a club, in memory, with an injected crash.
pub type Disks = Files<Fuse<Memory>>;

/// The state of a script between its lines.
#[derive(Drop)]
pub enum Held {
    /// Nothing: at the start, or after a line that failed.
    Nothing,
    /// A club in an in-memory database.
    Club(Club<MemStore>),
    /// An in-memory database without a club, or whose club was closed.
    Database(Connection<MemStore>),
    /// The files of a club.
    Files(Disks),
    /// The next requests are crashed at each disk call.
    Stopped {
        /// The files before the first request.
        start: CourseStart,
        /// The checkpoint threshold in frames of the log.
        frames: usize,
    },
}

impl Held {
    /// The in-memory database; closes its club.
    pub fn into_connection(self) -> Result<Connection<MemStore>> {
        match self {
            Held::Club(club) => Ok(club.into_connection()),
            Held::Database(conn) => Ok(conn),
            Held::Files(_) | Held::Stopped { .. } | Held::Nothing => bail!(
                "there is no database in memory"
            ),
        }
    }

    /// The in-memory club; opens it if it was closed.
    pub fn into_club(self, alloc: Global) -> Result<Club<MemStore>> {
        match self {
            Held::Club(club) => Ok(club),
            held => adopt_in_memory(alloc, held.into_connection()?),
        }
    }

    /// Executes these statements on the database or the files.
    pub fn execute_sql(self, alloc: Global, sql: &str) -> Result<Held> {
        match self {
            Held::Files(files) => {
                let (done, files) = changed_in(alloc, files, sql);
                done?;
                Ok(Held::Files(files))
            }
            held => Ok(Held::Database(execute_sql(held.into_connection()?, sql)?)),
        }
    }

    /// The files; an error if there are none.
    pub fn into_files(self) -> Result<Disks> {
        match self {
            Held::Files(files) => Ok(files),
            _ => bail!("there are no files"),
        }
    }
}
