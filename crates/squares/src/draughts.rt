//! Squares, sets of squares, pieces, moves and positions of international draughts.

pub mod direction;
pub mod laws;
pub mod moves;
pub mod numbers;
pub mod piece;
pub mod position;
pub mod ray;
pub mod set;
pub mod square;
