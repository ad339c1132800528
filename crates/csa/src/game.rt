//! A recorded game.

use squares::{SMove, Score};

/// A game from the initial position: its moves, its score, and whether it ended by a declared win.
#[derive(Drop)]
pub struct CsaGame {
    pub moves: Vec<SMove>,
    pub score: Score,
    /// Whether the side to move after these moves declared a win.
    pub declared: bool,
}
