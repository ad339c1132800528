//! Reader and writer of records of draughts games in Portable Draughts Notation (PDN).
//!
//! Follows PDN 3.0: <https://pdn.fmjd.org/>. Texts of single moves and positions are in `pdn`.
//!
//! # Guarantees
//!
//! - `read_game` (`game`, `fault`): a text is read as the game whose tokens it has, by the rules. Otherwise the first
//!   fault and its place are returned.
//! - `texts_are_read_in_one_way` (`one`, `read`): a text has one reading.
//! - `write_game`, `written_games_are_read`: a game is written as its one text; an ended game is read back as its
//!   moves and score.
//! - `GameWriter::start` (`written`, `begun`, `refused`), `push` (`written`, `begun`, `still`, `refused`), `finish`
//!   (`written`, `begun`, `refused`): the same text, move by move. A move that was not written leaves the game
//!   unchanged; without memory nothing was written.
//! - `written_moves_begin_games` (`tags`, `moves`): wherever writing stops, the output begins the text of each game
//!   that continues so.
//! - `Display` for `PdnFault`: a refused record is reported by number, name, and offset or ply and cause.
#![tactic(auto)]

mod contents;
mod ending;
pub mod faults;
pub mod game;
pub mod game_text;
pub mod game_writer;
pub mod head;
pub mod laws;
mod lengths;
mod order;
pub mod reading;
mod replay;
pub mod results;
mod skips;
mod tags;
mod tokens;
mod writing;

pub use draughts_moves::Memory;
pub use faults::PdnFault;
pub use game::PdnGame;
pub use game_text::write_game;
pub use game_writer::GameWriter;
pub use head::PdnHead;
pub use reading::read_game;
pub use record_writer::WriteFault;
