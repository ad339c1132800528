//! Executes the officer's commands over one open file of a club, and prints and explains the results.
//!
//! # Guarantees
//!
//! - `act`: what `club_session::execute_order` promises of an order, over a connection that was just opened.
//! - `act` (`given`, `history`): the orders of a batch are one session more, up to a fault. If a query that comes
//!   first is refused, none is executed.
//! - `act` (`bounded`): a sweep with a limit ends no game if more games are overdue, and reports their number.
//! - `act` (`answer`, `given`): an arbiter's command to a club of schema 2, and a batch with one, is fault 71 before
//!   any refusal, and changes nothing.
//! - `act` (`carries`, `repeats`, `stays`, `beside`): an upgrade carries a club of an earlier schema to the requested
//!   one, with the same state, and leaves any other as it is.
//! - `back_up` (`copied`, `after_crash`, `reads`): after `copied` the copy has exactly the club's tables, in the club's
//!   schema. Otherwise a crash leaves no table, or all; the club is only read.
//! - `back_up` (`untouched`, `unchanged`): if reading the club or an allocation failed, the copy was not touched;
//!   if writing the copy failed, the club is unchanged.
//! - `verify` (`same`, `keeps`, `passes`): a club that is found sound is unchanged, and a crash leaves what was
//!   committed. The report of a legal club names its schema.
//! - `print` (`status`, `done`, `refused`, `told`, `silent`): a report is printed to the stream of its status, or a
//!   prefix if that fails.
//! - `print_batch` (`printed`, `told`): the lines of all answered orders in turn, and then the fault, if one ended the
//!   batch.
//! - `print_explained` (`refused`, `told`), `Explanation::line`, `explain_refusal`: with `--explain` a refusal or a
//!   fault is followed by its explanation, or a prefix of it.
//! - `print_batch_explained` (`explained`, `told`): with `--explain` each refused order of a batch is explained behind
//!   the number of its line.
#![tactic(auto)]

pub mod batch;
pub mod batched;
pub mod causes;
pub mod copying;
pub mod execution;
mod explained;
mod explained_batch;
mod open_club;
pub mod report;
mod sweeps;
mod texts;
mod written;

pub use batched::{BatchResults, print_batch};
pub use causes::{
    ExplainedFault, Explanation, FileFault, ObjectKind, UnreadObject, WrongValue, explain_refusal,
};
pub use copying::back_up;
pub use execution::{act, verify};
pub use explained::{TaskReport, print_explained};
pub use explained_batch::{BatchReport, print_batch_explained};
pub use report::{BAD_WORDS, DONE, FAULT, REFUSED, Report, print};
