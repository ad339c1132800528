//! Tries moves after a line, by the rules of a game and without any effect on a game of the club.
//!
//! # Guarantees
//!
//! - `analyse` (`answered`): the texts are read as moves, one after another, each legal in its position. The
//!   position after them, its legal moves and the end of the line are the rules'. The first text that the rules refuse,
//!   or that follows the end of the line, is refused with its ply.
//! - `line_from_opening`, `line_from_text`, `line_of_moves`: a line begins at the initial position, at the position of
//!   a text, or after moves that were played by the rules.
#![tactic(auto)]

pub mod lines;
pub mod tried;

pub use lines::{Line, ShownLine, line_from_opening, line_from_text, line_of_moves};
pub use tried::analyse;
