//! The interface between the club and a game: the traits `Rules` and `Records`, and the refusals of moves and records.
//!
//! # Guarantees
//!
//! - `Rules`, `Records`: an implementation computes the functions of its game: checking, listing, playing, reading,
//!   writing and judging.
//! - `MoveRefusal::number`, `name`, `RecordRefusal::number`, `name`: a refusal has the number, name and text of its
//!   game or format.
//! - `write_moves`: the notation of each legal move.
#![tactic(auto)]

pub mod game;
pub mod names;
pub mod notation;
pub mod record_refusals;
pub mod records;
pub mod refusals;

pub use game::Rules;
pub use memory::Memory;
pub use names::{EndName, GameKind};
pub use notation::write_moves;
pub use record_refusals::RecordRefusal;
pub use records::{RecordFormat, RecordReading, RecordedGame, Records};
pub use refusals::MoveRefusal;
