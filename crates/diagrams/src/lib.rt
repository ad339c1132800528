//! Text diagrams of draughts and shogi positions, for people to read.
//!
//! # Guarantees
//!
//! - `write_draughts`, `write_shogi`, `write_bod`: the diagrams are exactly these texts.
//! - `tells_draughts`, `tells_shogi`, `tells_bod`: two positions with one diagram and one turn are the same.
#![tactic(auto)]

pub mod bod;
pub mod draughts;
pub mod laws;
pub mod shogi;

pub use bod::write_bod;
pub use draughts::write_draughts;
pub use memory::Memory;
pub use shogi::write_shogi;
