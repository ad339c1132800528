//! Reader and writer of shogi positions as SFEN and of shogi moves in USI notation.
//!
//! Follows USI: <http://hgm.nubati.net/usi.html>.
//!
//! # Guarantees
//!
//! - `read` (`read`, `fault`), `read_usi` (`played`, `fault`): a text is read exactly as the position and number, or
//!   the move, that it stands for. Another is refused at the length of its longest prefix that begins one.
//! - `write` (`text`, `stands_for`), `write_usi`: a position and a move are written as their one text.
//! - `writes_positions`, `reads_moves_back`, `reads_move_texts`: what is written stands for what was written.
//! - `has_one_form`, `stands_for_one`, `is_refused_once`, `has_one_move`, `has_one_offset`: a text has one meaning or
//!   one refusal.
//! - `writes_greatest_runs`: runs of empty squares are written as long as possible.
#![tactic(auto)]

pub mod faults;
mod letters;
mod places;
pub mod reading;
pub mod reading_laws;
mod signs;
mod usi_reading;
mod usi_writing;
mod writing;
pub mod writing_laws;

pub use faults::SfenFault;
pub use memory::Memory;
pub use reading::read;
pub use usi_reading::read_usi;
pub use usi_writing::write_usi;
pub use writing::{write, write_position};
