//! Game histories of either game: the fault of a sequence of moves that breaks the rules.
//!
//! Its `specs` define, for any game, the positions of a sequence of moves and when a move continues it.
//!
//! # Guarantees
//!
//! - `Display` for `LineFault`: the exact text of a fault in a sequence of moves, with its ply and cause.
#![tactic(auto)]

pub mod faults;

pub use faults::LineFault;
