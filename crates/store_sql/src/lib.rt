//! Reads, upserts and copies the rows of a club's tables over a SQLite connection, one transaction for each change.
//!
//! All guarantees about rows assume `HasCleanDisk`: no doubt about the disk has arisen.
//!
//! # Guarantees
//!
//! - `read_all` (`reads`, `rows`), `list` (`reads`, `rows`), `find_by_first` (`reads`, `rows`), `find` (`reads`,
//!   `rows`), `find_by_column` (`reads`, `rows`), `count` (`reads`, `count`): the rows are exactly those of the table,
//!   and reading changes nothing.
//! - `commit_changes` (`stored`, `fault`, `survives`): changed rows are upserted in one transaction with one commit.
//!   Done, the tables have these rows; failed, a crash leaves the tables before or after.
//! - `create_tables` (`stored`, `fault`, `behind`, `behind_fault`, `stands`): the tables are made, in an empty
//!   database or beside foreign tables with room for a club. A crash leaves no club or all of it.
//! - `migrate` (`stored`, `fault`, `survives`): a schema becomes a later one in one transaction with one commit.
//!   Failed, a crash leaves the tables before or after.
//! - `has_table` (`stands`, `missing`): whether a table of a club exists: true where it is the club's, false where
//!   nothing has its name.
//! - All of it holds beside foreign tables, indexes and views that have no part in writing a row (`TakesClub`).
#![tactic(auto)]

mod commit;
mod copy;
mod copy_fault;
mod creation;
mod fault;
mod keys;
mod lookups;
mod make;
mod migration;
mod read;
mod reopen;
mod rows;
mod texts;
mod upsert;

pub use commit::commit_changes;
pub use copy::copy_tables;
pub use copy_fault::CopyFault;
pub use creation::create_with_rows;
pub use fault::{ReadFault, TableFault, is_refused};
pub use keys::{
    ChallengeNumber, EventName, GameKey, LaterKey, MemberKey, MemberName, MovePly, ScoreKey,
    SeenPosition, UniqueKey, find,
};
pub use lookups::{ChallengesTo, ColumnValue, find_by_column};
pub use make::create_tables;
pub use migration::{has_table, migrate};
pub use read::{
    check_columns, check_rowids, count, find_by_first, list, read_all, read_by_first, show_all,
};
pub use reopen::holds_exactly;
pub use rows::read_rows;
pub use texts::Select;
pub use upsert::{Upsert, put_all};
