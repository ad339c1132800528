//! Queries on the tables of an open club: the rows that a command or a question needs, as typed values. Nothing is
//! written.
//! Every call fails with `Store` if a database call fails or a row is invalid, and with `Memory` if out of memory.
//!
//! # Guarantees
//!
//! - `read_known` (`known`), `identify_caller` (`found`), `member_by_key` (`held`), `all_members` (`values`),
//!   `name_of` (`found`), `all_events` (`values`), `event_with` (`found`): members, events and keys are as in the
//!   club's state.
//! - `stored_game` (`found`), `ids_in`, `game_under` (`found`), `count_games` (`count`), `challenge_by` (`found`),
//!   `last_moment` (`last`): so are games, challenges and the timestamp of the last accepted command.
//! - `view` (`shows`), `view_at_ply` (`shows`), `played_under` (`played`): the view of a stored game shows that game.
//! - `row_of` (`found`): the row of a ply is that of the game.
//! - `seen_row_of_decision` (`seen`), `occurrences_of`, `score_rows_of_decision` (`scores`), `score_rows_after`
//!   (`puts`): the repetition count after a move, and the scores after an end, are those of the next state.
//! - The clause `reads` of each call says that nothing changes, beside foreign tables too.
#![tactic(auto)]

mod challenges;
mod counts;
mod events;
mod fault;
mod found;
mod games;
mod known;
mod meta;
mod people;
mod played;
mod shown;

pub use challenges::challenge_by;
pub use counts::{
    occurrences_of, score_rows_after, score_rows_of_decision, score_rows_of_ruling,
    seen_row_of_decision,
};
pub use events::{all_events, event_with};
pub use fault::LookupFault;
pub use found::first;
pub use games::{count_games, game_under, ids_in, stored_game};
pub use known::read_known;
pub use meta::last_moment;
pub use people::{all_members, identify_caller, member_by_key, name_of};
pub use played::played_under;
pub use shown::{row_of, rulings_on, view, view_at_ply};
