//! The club's two games, international draughts and shogi, as implementations of the traits of `club_rules`.
//!
//! The rules of draughts are those of the FMJD. The rules of both games are in `draughts_moves`, `draughts_draws`,
//! `shogi_moves` and `shogi_repetition`; the texts are in `pdn`, `pdn_games`, `sfen` and `csa`.
//!
//! # Guarantees
//!
//! - `Rules` for `Draughts`, `Rules` for `Shogi`: each method is the function of the game's own crates. By the laws of
//!   `Rules`, what is written is read back, a legal move passes the turn, and no game continues after its end.
//! - `Records` for `Draughts`, `Records` for `Shogi`: a part of a text is read as the game, the refusal or the missing
//!   part that the format says. A game that is read follows the rules.
#![tactic(auto)]

pub mod draughts;
pub mod draughts_records;
mod kinds;
pub mod shogi;
pub mod shogi_records;

pub use club_rules::GameKind;
pub use draughts::Draughts;
pub use shogi::Shogi;
