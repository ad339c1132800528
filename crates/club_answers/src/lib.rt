//! Answers every query about a club from its tables.
//!
//! Reads only; `answer` is the one entry.
//!
//! # Guarantees
//!
//! - `answer` (`shown`, `begun`, `reads`): each query is answered with what the club's state shows, or refused. After
//!   a failed write the output is a prefix of that text; nothing changes.
//! - For each query `IsShown` says what is shown: a game (`IsGameBody`), its legal moves (`IsMovesBody`), a board
//!   (`IsBoardText`), an event's records (`AreEventRecords`).
//! - `overdue_games_are_swept` (`counted`, `swept`): the games that are listed as overdue are exactly those that a
//!   sweep then ends.
//! - `cross_tables_are_one`, `standings_are_one`: no other lines are those of a cross table, and no other text is that
//!   of standings.
//! - `legal_of` (`rows`), `view_of` (`viewed`), `export_game` (`written`, `begun`), `cross_table_lines` (`rows`): what
//!   a reader is shown of a game and of an event.
#![tactic(auto)]

mod analyses;
mod answers;
mod boards;
mod bodies;
mod challenge_lists;
mod challenges;
mod cross_table;
mod exported;
mod exporting;
mod found;
mod games;
mod kinds;
pub mod laws;
mod listed;
mod lists;
mod member_answers;
mod pages;
mod played_lines;
mod read;
mod reading;
mod records;
mod rulings;
mod running;
mod scored;
mod standings;
mod viewed;

pub use answers::answer;
pub use cross_table::cross_table_lines;
pub use exported::{RecordNames, ViewFault};
pub use exporting::export_game;
pub use reading::{legal_of, view_of};
pub use viewed::{GameProgress, ViewedGame};
