//! The ends of a game of international draughts: no legal move, and draws by repetition and by counting moves.
//!
//! The draws by repetition, king moves and few pieces follow the FMJD rules (https://www.fmjd.org/). The limit of 600
//! plies is our own.
//!
//! # Guarantees
//!
//! - `judge` (`played`, `end`, `fault`): returns the end that the rules give, or the fault of the first ply against
//!   the rules.
//! - `DrawCounts::start` (`follows`), `push` (`follows`, `fault`, `kept`), `end`: judged ply by ply, with the same
//!   result. A refused move changes nothing.
//! - `tails_tell_ends` (`begin`, `go_on`, `ends`): `Tail` determines the end, with the last position, its repetition
//!   count and the number of plies.
#![tactic(auto)]

mod classes;
pub mod counts;
pub mod ends;
pub mod faults;
pub mod judging;
mod king_moves;
pub mod laws;
pub mod tails;

pub use counts::DrawCounts;
pub use ends::DEnd;
pub use faults::DLineFault;
pub use judging::judge;
pub use tails::{Class, Tail};
