//! Recognises a club's tables in a database by their columns, types and keys, whatever statements created them.
//!
//! The terms are SQLite's:
//! - [type affinity](https://www.sqlite.org/datatype3.html)
//! - [STRICT tables](https://www.sqlite.org/stricttables.html)
//! - [CREATE TABLE](https://www.sqlite.org/lang_createtable.html)
//!
//! # Guarantees
//!
//! - `versions_of`, `Versions::has`: exactly the schema versions that a database's tables match, by `is_of_club`.
//! - `club_is_of_club`: the club's own tables match.
#![tactic(auto)]

mod columns;
mod keys;
mod tables;

pub use tables::{Versions, versions_of};
