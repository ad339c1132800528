//! JSON bodies of requests, and the bytes of HTTP replies.
//!
//! It follows RFC 9112 (https://www.rfc-editor.org/rfc/rfc9112) and RFC 8259
//! (https://www.rfc-editor.org/rfc/rfc8259).
//!
//! # Guarantees
//!
//! - `move_text`, `challenge_of`, `answer_of`, `analysis_of`: a body is parsed to what its JSON says, or to nothing.
//! - `answer_text`, `refusal_reply`, `fault_reply`, `shown_reply`, `page_reply`, `status_of`: each reply is its
//!   status, its fields and the one compact text of its data.
#![tactic(auto)]

mod analyses;
mod asks;
mod bodies;
pub mod refusals;
mod reply;
pub mod status;

pub use analyses::analysis_of;
pub use asks::{answer_of, challenge_of, move_text};
pub use bodies::answer_text;
pub use refusals::{HttpRefusal, Method};
pub use reply::{Caching, ContentType, fault_reply, page_reply, refusal_reply, shown_reply};
pub use status::status_of;
