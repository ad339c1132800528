//! The ends of a game.
ghost use Rattle.std.specs.Prelude.{◌≡◌};
ghost use Rattle.shogi_repetition.specs.Ends.{outcome_of};

use squares::{Score, Side};

/// How a game ends by the rules. If several ends apply, the first in this list counts.
#[derive(Clone, Copy, Debug, PartialEq, Eq, Hash)]
pub enum SEnd {
    /// The side to move has no legal move, whether in check or not, and loses.
    NoMove,
    /// The position occurs for the fourth time, and since its first occurrence this side alone gave check with each of
    /// its moves. This side loses.
    PerpetualCheck(Side),
    /// The position occurs for the fourth time with the same side to move (sennichite). The game is a draw.
    Fourfold,
    /// 600 plies have been played. The game is a draw.
    PlyLimit,
}

impl SEnd {
    /// The score of the game; `turn` is the side to move in the final position.
    pub fn outcome(self, turn: Side) -> Score
        ensures { result ≡ outcome_of self turn }
    {
        match self {
            SEnd::NoMove => Score::lost_by(turn),
            SEnd::PerpetualCheck(side) => Score::lost_by(side),
            SEnd::Fourfold | SEnd::PlyLimit => Score::Draw,
        }
    }
}
