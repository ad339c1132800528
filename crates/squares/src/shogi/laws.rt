//! Lemmas about the geometry of the shogi board: square numbers, files and ranks.
ghost use Rattle.squares.specs.internal.ShogiLaws.{NumbersGiveSquares, SquaresGiveNumbers};

/// Lemma: the numbers 0 to 80 and the squares, by file and rank, correspond one to one.
pub fn numbers_and_squares_correspond()
    ensures numbers { NumbersGiveSquares }
    ensures squares { SquaresGiveNumbers }
{}
