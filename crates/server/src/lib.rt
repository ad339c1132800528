//! The HTTP server on the loopback address: accept loop, poll loop, time limits and access log.
//!
//! It serves HTTP/1.1 by RFC 9112 (https://www.rfc-editor.org/rfc/rfc9112), one request per connection. TCP sockets and
//! the system clock are used here alone.
//!
//! # Guarantees
//!
//! - `Connections::serve_next` (`acts`, `acknowledged`): what it returns as served has the effect and the reply that
//!   the club's state determines. Without a reply the club acts once at some timestamp, or not.
//! - `serve_one` (`acts`, `answers`, `caller`, `written`): whatever the reader returns, the club does once what the
//!   received bytes ask for, or nothing. On `Ok` the writer has the reply to them.
//! - `serve_one` (`serves`, `begins`): over known bytes the reply to all of the input is written, or a prefix if
//!   writing fails.
//! - `serve_one` (`shut`, `nobody`, `unavailable`): an unavailable club returns its fault.
//! - `serve_unavailable` (`unavailable`): each reply needs no club or reports the fault, and no order is executed.
//! - `RequestBuffer::take` (`received`), `Client::receive`: what is added to the received bytes is what was read, in
//!   order.
//! - `Responder::reply` (`buffered`), `OutgoingReply::send` (`in_order`, `complete`): a reply is written to memory, and
//!   the stream gets those bytes, in order and each once.
//! - `line_of`: a log line is its timestamp, method, path in the route table, status and the member's name, or `-`; or
//!   the reason of an end without a request. It is printable ASCII, without a key.
//! - `Clients::serve` (`acts`, `unavailable`): a request for another host, or without a timestamp, is refused and not
//!   given to the club.
//! - `KeyLimit::count_wrong_key` (`reply`, `state`): after 20 wrong keys replies to further ones are a tenth of a
//!   second apart.
//! - `Log::write_entry`: a line is appended whole, after the number of lines that were left out, or it is left out and
//!   counted.
#![tactic(auto)]

mod access_log;
mod client;
mod client_queues;
mod clients;
mod connections;
mod file_hold;
mod key_limit;
mod lingering_close;
mod listener;
mod nonblocking_stderr;
mod open_files;
mod outgoing;
mod poll_clock;
mod poll_loop;
mod request_buffer;
mod responder;
mod sending;
mod serve;
mod times;

pub use connections::{Connections, Served, serve_unavailable};
pub use poll_loop::Server;
pub use responder::ServerOptions;
pub use serve::{Connection, Exchange, serve_one};
pub use times::clock;
