//! Bitboards: sets of squares of the draughts and shogi boards, one machine word each.
//!
//! # Guarantees
//!
//! - `Bitboard50`, `Bitboard81`: each method is the operation of a finite set, and the word has exactly the bits of
//!   the set's squares.
#![tactic(auto)]

mod word50;
mod word81;

pub use word50::Bitboard50;
pub use word81::Bitboard81;
