//! The squares of the board in order.
ghost use Rattle.std.specs.Prelude.{◌≡◌};
ghost use Rattle.shogi_moves.specs.Search.{all_squares};

use squares::Ssq;

/// All 81 squares, by file, then rank.
#[tactic(auto, unfolding(crate::specs::Search::all_squares))]
pub fn all_squares() -> [Ssq; 81]
    ensures { result ≡ all_squares }
{
    Ssq::all()
}
