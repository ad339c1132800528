//! The HTTP application: routes, authentication by key, and the reply that a request and the club's state determine.
//!
//! It knows nothing of sockets; `server` serves it.
//!
//! # Guarantees
//!
//! - `answer` (`replies`): the reply is that of the request and the club's state, and the club is in the state that
//!   follows. Or a 503 reports its fault, and the club is in one of two states.
//! - `answer` (`shut`, `nobody`): an unavailable club returns its fault to every request, and names no member.
//! - `answer` (`caller`): the reply is attributed to the member with the key of the one `Member-Key` field, if the
//!   path needs a key.
//! - `routes_are_there`, `paths_are_found`: every route of the table leads to its page, and one path of each kind is
//!   found.
//! - `is_foreign`, `foreign_reply`: which hosts are accepted, and the reply to a request for another one.
//! - `further_replies_are_not_stored`: a route's replies have `Cache-Control: no-store` unless the table leaves it
//!   open.
//! - `the_page_is_for_all` (`stands`, `shut`): everybody gets the page, also while the club is unavailable.
//! - `repeats_are_answered_alike`: an accepted and a repeated command get the same bytes.
#![tactic(auto)]

pub mod closed;
mod commands;
pub mod desk;
pub mod faults;
pub mod hosts;
pub mod laws;
mod pages;
pub mod questions;
pub mod routes;
pub mod served;
pub mod table;

pub use closed::UnavailableClub;
pub use desk::{AttributedReply, answer};
pub use faults::{ClubFault, DeskFault};
pub use hosts::{foreign_reply, is_foreign};
pub use routes::Routes;
pub use served::ClubService;
