//! The tables of a club: row types, table names and SQL statements.
//!
//! The statements are SQLite's: [STRICT tables](https://www.sqlite.org/stricttables.html) and
//! [upserts](https://www.sqlite.org/lang_upsert.html). Their meaning is in `specs/`.
//!
//! # Guarantees
//!
//! - `TableRow`, `parse_all` (`shows`, `mistyped`): a row of each of the twelve tables is written and read back as
//!   itself. Rows of other types are refused.
//! - `Table::put`, `all`, `ids`, `by_first`, `create`: the SQL texts are those that the table's description gives.
//!   `specs/Queries` says what each text means, by computation.
//! - `tables_altered`: upserting the changed rows of every table makes the new tables of the old.
#![tactic(auto)]

mod ids;
mod names;
mod parse;
mod rows;
mod texts;

pub use ids::check_ids;
pub use names::{Table, Version};
pub use parse::{RowError, TableRow, parse_all};
pub use rows::{
    ChallengeRow, Changes, ClosingRow, EventRow, EventRuleRow, GameTableRow, KeyRow, MemberRow,
    MetaRow, MoveRow, Rows, RulingRow, ScoreRow, SeenRow,
};
