//! The texts of a club's lists, boards and JSON objects, without access to the store.
//!
//! JSON follows RFC 8259: <https://www.rfc-editor.org/rfc/rfc8259>.
//!
//! # Guarantees
//!
//! - `game_text`, `moves_text`, `page_text`, `analysis_text`: the JSON of a game, of its legal moves, of both with the
//!   clock, and of an analysis is the one compact text of its data.
//! - `my_games_json`, `ended_games_json`, `challenge_choices_json`, `event_games_text`, `standings_json`: the lists of
//!   a member and of an event are exactly these texts. Of the challenges to a member at most ten from each challenger
//!   are listed, and a hundred in all; of those by the member the last hundred.
//! - `round_of`: the round of a game that a round robin seated, by its key (`keys_tell_rounds`).
//! - The lines of members, events, games and challenges are exactly the bytes that `specs/Lines` and
//!   `specs/ChallengeLines` give. `members_json`, `events_json`, `games_json`, `challenges_json`: their JSON is exactly
//!   the text that `specs/ClubJson` gives. Both of games list the same games in the same order (`listed_games`).
//! - `rulings_text`, `rulings_json`: the rulings on a game, with numbers from 1, are exactly the lines and the JSON of
//!   `specs/RulingTexts`.
//! - `is_ruled`, `push_ruling_orders`, `bulk_refusal`: the rulings on many running games are exactly the lines of a
//!   batch that `specs/RulingOrders` gives.
//! - A deadline is the last second in which the move is in time, or `never` or null after the last timestamp
//!   (`specs/Clock`).
#![tactic(auto)]

mod analysis;
pub mod board;
mod bodies;
mod challenge_lines;
pub mod clock;
mod club_json;
pub mod dates;
pub mod ended;
pub mod event_records;
pub mod game_entry;
pub mod lines;
mod listed_challenges;
pub mod listing;
pub mod member_json;
pub mod mine;
pub mod page;
pub mod rounds;
pub mod ruling_orders;
pub mod ruling_texts;
pub mod shown;
pub mod standings;
mod values;

pub use analysis::analysis_text;
pub use board::{BoardView, board_text};
pub use bodies::{game_text, moves_text};
pub use challenge_lines::challenges_text;
pub use clock::clock_text;
pub use club_json::{challenges_json, events_json, games_json, members_json};
pub use ended::ended_games_json;
pub use event_records::{event_game_ids, event_kind};
pub use game_entry::{GameEntry, GameOver, RunningGame};
pub use lines::{events_text, games_text, members_text};
pub use listing::{has_event, listing_refusal};
pub use member_json::{
    challenge_choices_json, event_games_text, member_id_by_key, member_name_by_key, own_game_ids,
};
pub use mine::{MemberGames, my_games_json};
pub use page::{GamePage, page_text};
pub use rounds::{keys_tell_rounds, round_of};
pub use ruling_orders::{bulk_refusal, is_ruled, push_ruling_orders};
pub use ruling_texts::{rulings_json, rulings_text};
pub use shown::{GameShown, end_name};
pub use standings::{games_in_event, standings_json};
