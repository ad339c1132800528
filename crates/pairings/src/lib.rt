//! Round-robin pairings by the Berger tables: who plays whom in which round, and who plays First.
//!
//! The tables are those of the FIDE Handbook, C.05, Annex 1.
//!
//! # Guarantees
//!
//! - `round`, `rounds`: the games of the Berger table, for 2 to 32 players, once or twice round.
//! - `six_play_as_in_fide`: for six players the table is FIDE's.
//! - `pairs_meet` (`once`, `with_each_side`): each pair meets once, or once with each side.
//! - `nobody_plays_twice`: no player has two games in a round.
//! - `sides_are_even` (`firsts`, `seconds`, `equal`): games as First and as Second differ by at most one, and are
//!   equal in a double round robin.
#![tactic(auto)]

pub mod laws;
pub mod table;

pub use laws::{nobody_plays_twice, pairs_meet, sides_are_even, six_play_as_in_fide};
pub use table::{BoardPairing, round, rounds, rounds_of};
