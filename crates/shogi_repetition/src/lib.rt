//! The ends of a game of shogi: no legal move, repetition (sennichite), perpetual check and the ply limit.
//!
//! A fourth occurrence of a position is a draw, unless one side alone has given check throughout; that side loses. The
//! limit of 600 plies is our own.
//!
//! # Guarantees
//!
//! - `judge` (`played`, `end`, `fault`): returns the end that the rules give, or the fault of the first ply against
//!   the rules.
//! - `each_line_has_one_end` (`some`, `one`, `computed`): each sequence of moves has one end, or continues.
//! - `Marks::start` (`follows`), `push` (`follows`, `fault`, `kept`), `end`: judged ply by ply, with the same result.
//!   A refused move changes nothing.
//! - `tails_tell_ends` (`begin`, `go_on`, `ends`): `Tail` determines the end, with the last position, its repetition
//!   count and first ply, and the number of plies.
#![tactic(auto)]

pub mod ends;
pub mod faults;
pub mod judging;
pub mod laws;
pub mod marks;
mod repeating;
pub mod tails;

pub use ends::SEnd;
pub use faults::SLineFault;
pub use judging::judge;
pub use marks::{Marks, RepetitionCount};
pub use tails::Tail;
