//! The control socket of the server: command lines send it commands and queries, or have it release the database file.
//!
//! It is a Unix domain socket beside the file, for the file's owner alone.
//!
//! # Guarantees
//!
//! - `encode_order`, `send_order`, `decode_frame` (`is`, `whole`, `part`), `joined` (`joined`, `parted`): an order is
//!   decoded as it was encoded: timestamp, words and record. A part of an order is waited for.
//! - `encode_answer`, `hear_answer`: an answer is decoded as it was encoded, its status and its text.
//! - `PendingPeer::hear`, `PendingPeer::wish` (`received`): a message is exactly the bytes that were read, in order.
//! - `operation_in`, `parse_request`: only a command or a query is an operation; an order that needs the file for
//!   itself is none.
//! - `serve_order` (`obeys`, `tells`): an order is executed once or not at all, and nothing is answered before. The
//!   answer is the print of the club's answer, or a prefix if writing fails.
//! - `print_answered` (`printed`, `small`): the command line prints exactly that, with its status, or a prefix if its
//!   stream fails.
//! - `Deadline`: a stream with a deadline reads and writes what the stream below does.
//! - `should_release`: the file is released on request as soon as no request is queued from its opening.
//! - `socket_permissions`, `is_trusted`: the socket has mode 600, or 660 if the group may read and write the file. A
//!   socket is trusted only if it belongs to the file's owner or to root.
#![tactic(auto)]

mod answers;
mod client;
mod control_requests;
mod deadline;
mod frames;
mod hold;
mod listener;
mod orders;
mod peers;
mod places;
mod reading;
mod writing;

pub use answers::OrderAnswer;
pub use client::{order, print_answered};
pub use deadline::{Countdown, Deadline, LimitedSocket, Timer, with_deadline};
pub use hold::should_release;
pub use listener::{CONTROL_TOKEN, ControlListener, FileLease, PendingOrder, request_lease};
pub use orders::{Operation, OrderFault, serve_order};
pub use writing::write_reply;
