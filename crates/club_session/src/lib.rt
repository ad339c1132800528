//! Runs one order or one serving session over a club's files: locks, opens, checks, executes and closes them.
//!
//! - The files, a database and its write-ahead log, have SQLite's format: <https://www.sqlite.org/fileformat2.html>
//!
//! # Guarantees
//!
//! ## One order over the file
//!
//! `club_program` calls `execute_order` for each order, over the result of `open_files`. The clauses about files
//! assume a file system that returns what was synced.
//!
//! - `execute_order` (`given_back`, `unopened`): if the files were opened, the store is returned. Otherwise the report
//!   is that of the opening, and nothing is done.
//! - `execute_order` (`history`): if a history leads to whatever an opening finds, that history and this order lead to
//!   whatever the next opening finds. Foreign tables keep their rows.
//! - `execute_order` (`next_state`): a crash leaves the tables of the state or of the next one, and of the next one if
//!   the command was answered. A batch leaves the state after its answered orders, or after one more.
//! - `execute_order` (`begun`, `behind`): after `init`, or a crash in it, there is an empty club or no club yet, also
//!   beside foreign tables.
//! - `execute_order` (`creation`, `empty`, `existing`): `init` reports that the club was created, 70 or 73. Where
//!   there is a club, it is 70 or 73, and the file is unchanged.
//! - `execute_order` (`answer`, `given`): the outcome of a command, and of each order of a batch, is that of the state
//!   machine.
//! - `execute_order` (`asked`, `silent`): a query writes what the club's state shows, or a prefix if the report says
//!   so. Nothing else writes to the output.
//! - `execute_order` (`passes`, `sound`): `verify` reports a legal club as sound unless a call fails. A file that is
//!   reported sound is a legal club's.
//! - `execute_order` (`shape`): the tables of an accepted file behave as a club's, whatever statements made them.
//! - `execute_order` (`refuses`, `older`, `spares`): a refused file is unchanged, and the reason is true. A club of
//!   schema 1 is refused by its number; `init` leaves other files unchanged.
//! - `copy_log` (`empty`): the log that `release_files` removes behind a file that had none has no frame, and a crash
//!   leaves nothing that it could not leave before.
//! - `execute_order` (`carries`, `repeats`, `stays`, `withheld`): `upgrade` makes an earlier schema the requested one
//!   with the same state, or leaves one of the two. It changes nothing in that schema or a later one, or in a file that
//!   it refuses.
//! - `execute_order` (`beside`): nothing is upgraded where a foreign table has the name of a new one.
//!
//! ## A serving session
//!
//! `club_program` calls `serve_files` for each serving session. Its items are the results of `serve_next`: each
//! request of a member and each order of the officer.
//!
//! - `serve_files` (`history`, `whole`): the history and some commands, each a session of its own, lead to whatever
//!   the next opening finds. Without a fault each of them took effect whole.
//! - `serve_files` (`acknowledged`): whatever a crash leaves, the next opening finds a state to which the served items
//!   lead, in order. An item with a reply has its effect; one without has it or not.
//! - `serve_files` (`answered`): after a session without a fault this is one state, whatever a crash leaves.
//! - `serve_files` (`unopened`, `unserved`): if the files are not opened, nothing is served.
//! - `serve_files` (`told`, `taken`, `accepts_sound`): the reported fault is true: 74, or the reason why the file was
//!   refused. A legal club's file meets 73, 74 or 75 only.
//! - `serve_files` (`shape`): the tables of an accepted file behave as a club's.
//! - `serve_club` (`history`, `stands`, `acknowledged`, `answered`, `told`, `taken`, `shape`, `accepts_sound`): the
//!   same over a connection that was just opened.
//! - `repeats_are_due_alike`: an accepted request that the member sends again, after any sessions and openings, under
//!   the key that the member has then, has the same answer and changes nothing. An offer of a draw has it until the
//!   next move.
//!
//! ## A backup
//!
//! - `back_up` (`kept`): later openings of the club find what this one found, whatever a crash leaves.
//! - `back_up` (`refuses`, `older`, `untaken`): a refused file is refused as by every command, and no copy is returned.
//! - `back_up` (`sound`, `copied`): after `copied` the club is legal, and a copy in new files has exactly its tables,
//!   whatever a crash leaves.
//! - `back_up` (`after_crash`): a crash leaves no table of the copy, or all of them.
//! - `back_up` (`possible_faults`): a backup of a legal club is copied, or a call failed.
#![tactic(auto)]

mod cache_size;
mod copying;
mod desk_club;
mod faults;
pub mod laws;
mod opening;
mod order;
mod preflight;
mod releasing;
mod serving;
mod serving_session;
mod shown;
mod unread;

pub use copying::{BackupResult, back_up};
pub use desk_club::DeskClub;
pub use faults::fault_of_opening;
pub use opening::RepeatableStart;
pub use order::{execute_order, open_files};
pub use preflight::has_log;
pub use releasing::release_files;
pub use serving::serve_club;
pub use serving_session::serve_files;
