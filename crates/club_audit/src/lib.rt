//! Checks that the rows of a database are those of a legal club, and names the first wrong table.
//!
//! # Guarantees
//!
//! - `wrong_register` (`sound`, `complete`, `first`): the rows of members, keys, events, rules, closings and challenges
//!   are accepted exactly if a legal club can have them.
//! - `are_keys` (`sound`, `complete`): rows of later keys are accepted exactly if they are those of the members.
//! - `audit_game` (`sound`, `complete`, `first`), `wrong_game`: the rows of one game are accepted exactly if they are
//!   those of a legal game at its place.
//! - `are_scores` (`sound`, `complete`), `are_seen` (`sound`, `complete`): rows of scores and of positions are
//!   accepted exactly if they are those of the games.
//! - The reported table is the first wrong one (`IsFirstWrong`).
#![tactic(auto)]

pub mod audit;
mod challenges;
mod closings;
mod game_audit;
mod keys;
mod people;
mod seen_audit;
mod standings;

pub use audit::{are_apart, wrong_game, wrong_register};
pub use challenges::are_challenges;
pub use closings::{are_closed_by, are_closings};
pub use game_audit::{GameRows, audit_game};
pub use keys::are_keys;
pub use people::{are_events, are_members, are_rules, terms_of};
pub use seen_audit::are_seen;
pub use standings::are_scores;
