//! Reader and writer of records of shogi games in the standard format of the Computer Shogi Association (CSA).
//!
//! Follows CSA V2.2: <http://www2.computer-shogi.org/protocol/record_v22.html>.
//!
//! # Guarantees
//!
//! - `read_games` (`games`, `fault`): a text is read as records of these games in order. Otherwise the first fault and
//!   its line are returned.
//! - `texts_are_read_in_one_way` (`one`, `read`): a text has one reading.
//! - `write_game`: a game is written as its one text, with an end by declaration only if the points hold after the
//!   last move.
//! - `GameWriter::start` (`written`, `begun`, `refused`), `push` (`written`, `begun`, `still`, `refused`), `finish`
//!   (`written`, `begun`, `refused`): the same text, move by move. A move that was not written leaves the game
//!   unchanged; without memory nothing was written.
//! - `written_moves_begin_games` (`lines`, `moves`): wherever writing stops, the output begins the text of each game
//!   that continues so.
//! - `written_games_are_read` (`ended`, `running`): an ended game, with names of one line each, is read back as its
//!   moves, score and declaration. A running one is refused as unfinished.
//! - `Display` for `CsaFault`: a refused record is reported by number, name, and line or ply and cause.
#![tactic(auto)]

pub mod codes;
pub mod end_words;
mod endings;
pub mod faults;
pub mod game;
pub mod game_text;
pub mod game_writer;
pub mod head;
pub mod laws;
pub mod lines;
mod moves;
mod openings;
pub mod order;
pub mod reading;
mod records;
mod replay;
pub mod statements;
mod writing;

pub use faults::CsaFault;
pub use game::CsaGame;
pub use game_text::write_game;
pub use game_writer::GameWriter;
pub use head::{CsaEnd, CsaHead};
pub use reading::read_games;
pub use record_writer::WriteFault;
