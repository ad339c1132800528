//! Lemmas about the geometry of the draughts board: square numbers, rows, columns and diagonals.
ghost use Rattle.squares.specs.internal.DraughtsLaws.{NumbersGivePlaces, PlacesGiveNumbers, LinesFollowCoordinates};

/// Lemma: the numbers 1 to 50 and the dark squares, by row and column, correspond one to one.
pub fn numbers_and_places_correspond()
    ensures numbers { NumbersGivePlaces }
    ensures places { PlacesGiveNumbers }
{}

/// Lemma: a diagonal advances by one row and one column per square, up to the edge of the board.
pub fn lines_follow_coordinates()
    ensures { LinesFollowCoordinates }
{}
