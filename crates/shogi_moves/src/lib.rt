//! The rules of shogi: legal moves, check and mate, the position after a move, and the entering-king declaration.
//!
//! The declaration is the 27-point rule, recorded as `%KACHI` in CSA V2.2
//! (http://www2.computer-shogi.org/protocol/record_v22.html).
//!
//! # Guarantees
//!
//! - `legal` (`in_order`, `members`): the list is the legal moves of the rules, each once, in order.
//! - `check` (`legal`, `refused`): `Ok` exactly for legal moves, otherwise the first rule that the move breaks.
//! - `has_move`, `play`, `attacked`, `in_check`, `mated`: as the rules define them.
//! - `can_declare` (`rule`): the side to move may declare the entered king, exactly by the 27-point rule.
//! - `check_is`, `has_move_is`, `can_declare_is`: what the code computes is what the relations of the rules say.
//! - `turn_passes`: a legal move passes the turn.
//! - `lines_follow_coordinates`: lines of squares follow files and ranks to the edge.
#![tactic(auto)]

mod attacks;
mod board_squares;
mod checking;
mod declaring;
mod heading;
mod kings;
pub mod laws;
mod layout;
mod listing;
mod mating;
mod move_visitor;
mod pins;
mod playing;
mod pseudo;
mod reaching;
mod zones;

pub use attacks::{attacked, in_check};
pub use checking::{Illegal, check, has_move};
pub use declaring::can_declare;
pub use listing::legal;
pub use mating::mated;
pub use memory::Memory;
pub use playing::play;
