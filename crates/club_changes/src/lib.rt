//! Computes what a command changes in the tables: its outcome and the rows to upsert, without any I/O.
//!
//! Calls fail with `Memory` if out of memory, and with `InconsistentRows` if the given rows or values are not those of
//! a legal club.
//!
//! # Guarantees
//!
//! - `on_member` (`acts`, `step`), `on_event` (`acts`, `step`): the answer, and the rows that give the tables of the
//!   next state.
//! - `on_key` (`acts`, `step`), `on_closing` (`acts`, `step`): the same for a club with an arbiter.
//! - `put_ruling` (`acts`, `step`), `ruling_row_of_decision`: the same for a ruling on a game.
//! - `put_decision` (`step`), `sweep_games` (`step`), `put_challenge` (`step`), `put_answered` (`step`): the upserted
//!   rows give the tables of the next state. Nothing is upserted unless the command is accepted.
//! - `seated_rows` (`puts`), `put_rows`, `new_rows`: the rows of a new game, and of an imported game, its plies and
//!   positions, are those of the club's state.
//! - `played_of`: the moves of a stored game are those of its rows.
//! - `swept_rows` (`rows`), `sweep_leaves_others`: as many games end by time as the state says. A sweep changes no
//!   other table but `meta`.
//! - `event_at` (`unfit`), `seated_rows` (`unfit`), `put_answered` (`unfit`), `sweep_games` (`unfit`): rows are
//!   reported inconsistent only if there is no such event, or they are those of no club.
#![tactic(auto)]

pub mod arbiter;
pub mod challenges;
pub mod decided;
pub mod fault;
pub mod game;
pub mod imported;
pub mod imports;
mod kinds;
pub mod people;
pub mod rulings;
pub mod seats;
mod starts;
pub mod stored;
pub mod sweep;
pub mod swept;

pub use arbiter::{needs_arbiter, on_closing, on_key};
pub use challenges::{put_answered, put_challenge};
pub use decided::{CommandEffect, without_changes};
pub use fault::ChangeFault;
pub use game::{DerivedRows, put_decision};
pub use imported::{NewRows, new_rows, played_of};
pub use imports::{ImportContext, event_kind, put_rows};
pub use people::{on_event, on_member};
pub use rulings::{RulingRows, put_ruling, ruling_row_of_decision};
pub use seats::{event_at, seated_rows, terms_of};
pub use stored::StoredGame;
pub use sweep::sweep_games;
pub use swept::{SweepFault, SweptRows, swept_rows};
