//! Executes commands, queries and schema upgrades on a club's tables, over any store of `sqlite`.
//!
//! Each accepted command is one transaction with one commit, so every command is atomic.
//!
//! # Guarantees
//!
//! - `create` (`stored`, `schema`, `begins`, `fault`, `after_crash`): in an empty database the tables become those of
//!   the opening state, with an arbiter or without one. Failed, a crash leaves the empty database or those tables.
//! - `create` (`behind`, `behind_fault`, `stays`): the same beside foreign tables with room for a club. A club's
//!   database is unchanged.
//! - `adopt` (`found`, `held`, `kept`): an accepted database holds exactly a legal club of schema 2 or schema 3, and
//!   opening changes nothing that was committed.
//! - `adopt` (`reason_is_right`, `first_damaged`): the reason of a refusal is true. 72 names the first wrong table;
//!   71 means another schema number; 70 means other tables.
//! - `adopt` (`accepts_sound`, `first`): a legal club meets 73 and 75 only; one of schema 1 is refused by its number.
//! - `Club::apply` (`answer`, `step`, `fault`, `after_crash`): the answer is the state machine's, and the tables are
//!   those of its next state. If a call fails, a crash leaves the tables before or after.
//! - `Club::apply` (`possible_faults`, `shut`, `unchanged`): a failed call answers 73 or 75, and each later one 74. A
//!   request that is not accepted changes nothing.
//! - `Club::apply` (`schema`, `other_schema`): an arbiter's command to a club of schema 2 answers 71, changes nothing,
//!   and leaves the club open. No other command does.
//! - `requests_keep_clubs`: a request whose command the club takes leaves a legal club legal.
//! - `Club::ask` (`shown`, `begun`, `output`): a query is answered as `club_answers` says. After a failed writer the
//!   club stays open.
//! - `Club::member_by_key` (`held`): the name of the member who has a key.
//! - `Club::preview` (`answer`, `reads`): the outcome that a command would have, with nothing changed.
//! - `Club::run` (`outcomes`, `stored`, `left`): requests in turn have the outcomes of the state machine. After a
//!   fault, a crash leaves the tables after the answered requests or after one more.
//! - `Club::session` (`history`, `stands`), `resume` (`history`, `stands`): a crash leaves the tables to which the
//!   first k accepted requests of each session lead. Here k covers every acknowledged request, and at most one more.
//! - `resume` (`kept`), `crash_keeps_history`, `histories_begin_at_opening`, `opened_history_holds`: the same over any
//!   number of openings. A session whose opening fails adds nothing.
//! - `upgrade` (`done`, `fault`, `history`, `after_crash`): a legal club of an earlier schema becomes one of the
//!   requested schema with the same state. Failed, a crash leaves the tables of either schema.
//! - `upgrade` (`already`, `unchanged`, `kept`, `accepts_sound`, `reason_is_right`, `shape`): the requested schema, a
//!   later one and a refused file are unchanged, and the reason of a refusal is true.
//! - `Display` for `StoreFault`, `Display` for `AskFault`: a fault is written as its number and its name.
//! - Foreign tables, indexes and views, and their rows, stay (`HoldsClubAmong`, `TakesClub`).
#![tactic(auto)]

mod challenges;
mod club;
mod command;
mod decides;
mod fault;
mod game;
mod imports;
pub mod laws;
mod reopen;
mod rulings;
mod seats;
mod sweep;
mod upgrade_result;
mod upgrades;

pub use club::{Club, Run, Unopened, adopt, create, resume};
pub use club_check::OpenFault;
pub use fault::{AskFault, StoreFault};
pub use reopen::{crash_keeps_history, opened_empty_holds, opened_history_holds};
pub use store_sql::holds_exactly;
pub use store_tables::Table;
pub use upgrade_result::Upgrade;
pub use upgrades::upgrade;
