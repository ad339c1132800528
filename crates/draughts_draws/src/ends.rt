//! The ends of a game.
ghost use Rattle.std.specs.Prelude.{◌≡◌};
ghost use Rattle.draughts_draws.specs.Ends.{outcome_of};

use squares::{Score, Side};

/// How a game ends by the rules. If several ends apply, the first in this list counts.
#[derive(Clone, Copy, Debug, PartialEq, Eq, Hash)]
pub enum DEnd {
    /// The side to move has no legal move and loses. All other ends are draws.
    NoMove,
    /// The position occurs for the third time with the same side to move.
    Repetition,
    /// The last 50 plies were all king moves without a capture.
    KingMoves,
    /// Each of the last 33 positions has three pieces, at least one of them a king, against a lone king.
    ThreeToOne,
    /// Each of the last 11 positions has a king, or two pieces with at least one king, against a lone king.
    TwoToOne,
    /// 600 plies have been played.
    PlyLimit,
}

impl DEnd {
    /// The score of the game; `turn` is the side to move in the final position.
    pub fn outcome(self, turn: Side) -> Score
        ensures { result ≡ outcome_of self turn }
    {
        match self {
            DEnd::NoMove => Score::lost_by(turn),
            DEnd::Repetition
            | DEnd::KingMoves
            | DEnd::ThreeToOne
            | DEnd::TwoToOne
            | DEnd::PlyLimit => Score::Draw,
        }
    }
}
