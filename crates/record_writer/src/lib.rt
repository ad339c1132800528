//! Writes a game record piece by piece; after a failure the output holds a prefix of the record.
//!
//! # Guarantees
//!
//! - `write_piece` (`whole`, `begun`): a piece of a record is written whole, or a prefix of it if the writer fails.
#![tactic(auto)]

pub mod fault;
pub mod piece;

pub use fault::WriteFault;
pub use piece::write_piece;
