//! Checks, when a database is opened, that its schema and every row are those of a legal club.
//!
//! Reads only; the database is not changed.
//!
//! # Guarantees
//!
//! - `check_database` (`stays`, `held`), `check_schemas` (`stays`, `held`): an accepted file with a club's tables has
//!   the rows of a legal club of its schema, and is unchanged.
//! - `check_database` (`reason_is_right`, `first`): the reason of a refusal is true, and a damaged table that is named
//!   is the first wrong one.
//! - `check_database` (`accepts_sound`), `check_schemas` (`accepts_sound`, `standing`, `newer`): a legal club of
//!   any schema is refused only if a call failed or memory ran out.
//! - `check_schemas` (`shape`), `check_database` (`shape`): accepted tables behave as those of the version, by
//!   whatever statements they were made.
//! - `Display` for `OpenFault`: a fault is written as its number, its name and what it names.
#![tactic(auto)]

mod arbiter;
mod audit;
mod fault;
mod games;
mod known;
mod opening;
mod read;

pub use fault::OpenFault;
pub use opening::{check_database, check_schemas};
pub use read::{Register, fault_of};
