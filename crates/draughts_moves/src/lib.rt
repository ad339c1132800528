//! The rules of international draughts: legal moves, and the position after a move.
//!
//! Follows the FMJD rules of international draughts (https://www.fmjd.org/).
//!
//! # Guarantees
//!
//! - `legal` (`in_order`, `members`): the list is the legal moves of the rules, each once, in order.
//! - `legal_move_count`: the length of that list, without the list.
//! - `check` (`legal`, `must_capture`, `not_longest`): `Ok` exactly for legal moves, otherwise the refusal by its
//!   case.
//! - `has_move` (`legal`), `play`, `routes` (`in_order`, `members`): whether there is a legal move, the position after
//!   a move, all routes of a capture in order.
//! - `check_is`, `has_move_is`, `routes_grow`: what the code computes is what the relations of the rules say.
//! - `turn_passes`: a legal move passes the turn.
#![tactic(auto)]

pub mod checking;
pub mod counting;
mod exposure;
mod first_jumps;
mod found;
pub mod jumps;
pub mod laws;
pub mod listing;
mod longest;
pub mod most;
mod move_visitor;
pub mod mover;
mod neighbors;
mod ordering;
pub mod playing;
mod reaches;
pub mod routing;
mod steps;

pub use checking::{Illegal, check, has_move};
pub use counting::legal_move_count;
pub use jumps::{Jumps, jumps_from};
pub use listing::legal;
pub use memory::Memory;
pub use most::own_at;
pub use mover::Mover;
pub use playing::play;
pub use routing::routes;
