//! Parser of HTTP requests: framing, head and body, for any prefix of the bytes.
//!
//! It follows RFC 9112 (https://www.rfc-editor.org/rfc/rfc9112), with limits of its own; `httparse` reads the head.
//!
//! # Guarantees
//!
//! - `read_request` (`seen`, `asks_head`): the bytes are an incomplete request, a rejected head by the first error in
//!   order, or a complete request.
//! - `decided_stays`, `one_reading`: once decided, no further bytes change it.
//! - `named_host`: the target and the value of Host, of a complete head without an earlier refusal.
//! - `read_request_bytes` (`taken`, `enough`): a reader's bytes are read until then, after those that were received
//!   before.
#![tactic(auto)]

pub mod framing;
pub mod head;
pub mod intake;
pub mod laws;
pub mod refusals;
pub mod request;
pub mod stream;

pub use framing::{HeadEnd, LineState, Scan};
pub use head::{NamedHost, ParsedHead, number_of};
pub use intake::RequestReader;
pub use refusals::HeadRefusal;
pub use request::{HttpRequest, ParseState, Reading, named_host, read_request, skip_line_breaks};
pub use stream::{RequestReadFault, is_interrupted, read_request_bytes};
