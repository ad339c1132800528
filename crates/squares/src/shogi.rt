//! Squares, pieces, hands, moves and positions of shogi.

pub mod board;
pub mod hand;
pub mod laws;
pub mod moves;
mod opening;
pub mod piece;
pub mod position;
pub mod square;
mod words;
