//! The commands and queries that a club accepts, who gives them, its outcomes and refusals, and the limits of values.
//!
//! # Guarantees
//!
//! - `Display` for `Outcome`, `Answer`, `Refusal`: an outcome is written as its one line.
//! - `is_name`, `is_member_key`, `is_challenge_number`, `is_budget`, `is_increment`, `is_grant_time`: values are
//!   accepted exactly within the club's limits.
//! - `Display` for `Ruling`, `Ruling::verdict`, `Verdict::score`: a ruling is written as the command line reads it, and
//!   ends the game or not, with a score or not.
//! - `Command::name`: a command's subcommand; challenges and the commands of members on games, but for moves, have
//!   none.
#![tactic(auto)]

pub mod answers;
pub mod outside_end;
pub mod questions;
pub mod refusals;
pub mod requests;
pub mod rulings;
pub mod values;

pub use answers::{Answer, MoveAnswer, Outcome};
pub use outside_end::{OutsideEnd, is_outside};
pub use questions::{Analysis, AnalysisStart, BulkRuling, GameFilter, Listing, Question};
pub use refusals::Refusal;
pub use requests::{
    AddEvent, AddMember, AnswerChallenge, Caller, CloseEvent, Command, GameCommand, Import, NewKey,
    OnGame, OpenChallenge, Request, Rule, Seat, Who, Withdraw,
};
pub use rulings::{Ruling, Verdict, is_verdict, side_text};
pub use values::{is_challenge_number, is_member_key, is_name};
