//! The club's state machine: the transition of each command, or the reason for its refusal.
//!
//! # Guarantees
//!
//! - `decide`, `settle`, `conclude`: the decision on a command in a game is the step of the state machine, for every
//!   game that the view shows.
//! - `add_member`, `add_event`, `seat`: adding a member or an event and seating a game are steps of the state machine.
//! - `rule`, `settle`, `conclude`: the decision on a ruling of the arbiter is the step of the state machine, for every
//!   game that the view shows.
//! - `new_key`, `close_event`: giving a member another key and closing an event to challenges are steps too.
//! - `open_challenge`, `withdraw`, `answer_challenge`: opening, withdrawing and answering a challenge are steps too,
//!   with the challenge as it will be stored.
//! - `read_legal` (`value`, `legal`): a text is read as its move, if that is legal in the position.
#![tactic(auto)]

pub mod challenges;
pub mod decided;
pub mod decisions;
mod declarations;
mod draws;
mod endings;
pub mod ends;
pub mod events;
mod ids;
pub mod keys;
pub mod members;
mod moves;
mod players;
pub mod rows;
pub mod rulings;
pub mod seats;
pub mod settling;

pub use challenges::{
    Challenge, ChallengeDecision, ChallengeState, answer_challenge, open_challenge, withdraw,
};
pub use decided::Decision;
pub use decisions::{asked_ply, decide, refusal_without_game};
pub use events::{Event, add_event, close_event, event_declares};
pub use keys::new_key;
pub use members::{Member, add_member, identify};
pub use moves::read_legal;
pub use rows::{Asked, GameEnd, GameRow, GameView, Made, Offer, StoredRulings};
pub use rulings::{GivenRuling, rule};
pub use seats::{
    KeyedGame, NamedPairing, Pairing, SeatDecision, StoredGames, keyless_row, seat, seated_row,
};
pub use settling::{Settled, conclude, settle};
