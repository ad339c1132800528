//! Converts a club's state to the rows of its tables and back, and checks a game's rows by replaying its moves.
//!
//! # Guarantees
//!
//! - `view_of` (`sound`, `complete`, `wrong`): a game is shown from its rows if and only if they are the rows of a
//!   legal game. Rows that are reported wrong are no legal game's.
//! - `stored_game`: a game's row is parsed to the values, each in its range, that have this row.
//! - `view_of_row` (`shows`, `found`), `with_ply` (`shows`, `ply`): the row alone shows the game without its moves;
//!   with the rows of a ply, also what was played there. Only a game with a verdict (`has_verdict`) needs its rulings.
//! - `read_rulings` (`some`, `none`), `ruling_row`, `ruling_row_is_last`: the rulings on a game are read from their
//!   rows if and only if these are possible; a ruling adds its row as the last.
//! - `PositionCounts::add` (`stood`, `adds`), `occurrences_after`, `occurrences_in`: the repetition count and first
//!   ply of each position, by its text.
//! - `legal_texts`: the legal moves of the game that a view shows, in the order of the rules.
//! - `record_of`, `move_row`, `made_row_is_last`: the rows made of a game and of a move are those of the club's state.
//!   A move adds its row as the last.
//! - `seen_after`, `first_seen`: each distinct position of a game has one row, and a move changes exactly the row of
//!   its position.
//! - `score_after` (`some`), `score_changed` (`some`): the rows of scores after a game are those of the ended games
//!   with this one more, or with its new score.
//! - `challenge_row`, `challenge_of` (`some`, `read`): a challenge is read from its row if and only if the row is a
//!   challenge's.
//! - `tables_tell_the_club`: two legal states with the same tables are one.
#![tactic(auto)]

pub mod challenges;
pub mod columns;
pub mod ends;
pub mod kinds;
pub mod laws;
mod listing;
pub mod numbers;
pub mod records;
pub mod replay;
pub mod row_view;
pub mod rulings;
pub mod scores;
pub mod seen;
pub mod tally;
pub mod view;

pub use challenges::{challenge_of, challenge_row};
pub use kinds::{kind_number, kind_of};
pub use listing::legal_texts;
pub use records::{move_row, record_of};
pub use replay::{Opening, Terms};
pub use row_view::{PlyRows, view_of_row, with_ply};
pub use rulings::{GameRulings, has_verdict, read_rulings, ruling_of, ruling_row};
pub use scores::{ScoreRows, score_after, score_changed};
pub use seen::{first_seen, occurrences_in, seen_after};
pub use tally::{Occurrences, PositionCounts};
pub use view::{CheckedGame, CheckedRows, view_of};
