//! Reader and writer of the draughts texts of Portable Draughts Notation (PDN): positions as FEN, and moves.
//!
//! Follows PDN 3.0: <https://pdn.fmjd.org/>. Texts of whole games are in `pdn_games`.
//!
//! # Guarantees
//!
//! - `write_fen`, `write_move`: a position and a legal move are written as their one text.
//! - `read_fen` (`read`, `fault`), `read_move` (`read`, `fault`): a text is read exactly as the position, or legal
//!   move, that it stands for. Otherwise it is refused by its condition and offset.
//! - `reads_back`, `reads_position_back`: what is written is read back.
//! - `reads_one_move`, `reads_one_position`: a text has one reading.
//! - `forms_are_texts`, `fen_forms_are_texts`: the texts are those of a grammar by parts.
//! - `offsets_are_longest_beginnings`, `fen_offsets_are_longest_beginnings`: the offset of a refused text is the
//!   length of its longest prefix that begins a text of the grammar.
#![tactic(auto)]

pub mod faults;
pub mod fen;
mod fen_form;
mod forms;
mod items;
pub mod laws;
pub mod moves;
mod passing;
mod reaching;
pub mod reading;
pub mod reading_fen;
mod squares_text;

pub use draughts_moves::Memory;
pub use faults::{FenFault, MoveFault};
pub use fen::write_fen;
pub use moves::write_move;
pub use reading::read_move;
pub use reading_fen::read_fen;
