//! Writes games of the club as records, move by move and to any writer.
//!
//! Draughts is written in PDN 3.0 (<https://pdn.fmjd.org/>), shogi in CSA V2.2
//! (<http://www2.computer-shogi.org/protocol/record_v22.html>).
//!
//! # Guarantees
//!
//! - `WriteRecord` for `Draughts`, `WriteRecord` for `Shogi`: header, moves and end are written as the format's one
//!   text has them.
//! - `Export::start` (`written`, `begun`), `push` (`written`, `begun`), `finish` (`written`, `begun`): entry by entry,
//!   the record up to a legal entry is written.
//! - `written_entries_begin_games`: wherever writing stops, the output begins the record of each game that continues
//!   so.
#![tactic(auto)]

mod draughts;
pub mod export;
pub mod exports;
pub mod heading;
pub mod laws;
mod shogi;

pub use export::Export;
pub use exports::WriteRecord;
pub use heading::RecordHeader;
