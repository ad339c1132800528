//! A recorded game.

use squares::{DMove, Score};

/// A game from the initial position: its moves and its score.
#[derive(Drop)]
pub struct PdnGame {
    pub moves: Vec<DMove>,
    pub score: Score,
}
