//! Batches of commands: parsing them from text, and seating a round robin.
//!
//! # Guarantees
//!
//! - `seats_of` (`requests`, `numbers`, `questions`): the orders of a round robin are the seats of the Berger table,
//!   numbered from 1. Each name is looked up before.
//! - `seats_of` (`accepted`, `refused`): a round robin is refused by the first test that fails, in the order of
//!   `robin_tests`.
//! - `read_orders` (`orders`): one order for each line that is neither blank nor a comment, with the line's number, as
//!   its words state it.
//! - `read_orders` (`refused`, `size`, `utf8`, `few`): a batch is refused for its length, its encoding, or its first
//!   invalid line. At most 10,000 orders are accepted.
#![tactic(auto)]

pub mod orders;
pub mod seats;

pub use orders::{BATCH_BYTES, BatchLine, batch_for, push_order, read_orders};
pub use seats::{SeatError, seat_lines, seats_of};
