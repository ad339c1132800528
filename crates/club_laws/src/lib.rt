//! Properties of the club's state machine, proved for every sequence of requests.
//!
//! # Guarantees
//!
//! - `accepted_suffice`: the accepted requests alone lead to the same state.
//! - `unaccepted_requests_change_nothing`: refused and repeated requests change nothing.
//! - `requests_keep_legal`: a step keeps a legal state legal.
//! - `keys_identify`: in a legal state the newest key of a member identifies the member, and an earlier one nobody.
//! - `timestamps_never_decrease`: the timestamp of the last accepted request never decreases.
//! - `commands_are_idempotent`, `outdated_offers_are_refused`: an accepted command that is sent again gets the same
//!   answer. An offer gets it only until the next move, and 56 or 57 after that.
#![tactic(auto)]

pub mod laws;

pub use laws::{
    accepted_suffice, commands_are_idempotent, keys_identify, outdated_offers_are_refused,
    requests_keep_legal, shown_is_sound, timestamps_never_decrease,
    unaccepted_requests_change_nothing,
};
