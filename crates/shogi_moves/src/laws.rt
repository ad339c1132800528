//! Properties of the rules as a whole.
ghost use Rattle.shogi_moves.specs.internal.Declaring.{CanDeclareIs};
ghost use Rattle.shogi_moves.specs.internal.Laws.{CheckIs, HasMoveIs, TurnPasses, LinesFollowCoordinates};

/// Lemma: `check_of` accepts exactly the legal moves and gives every other move the first rule that it breaks.
pub fn check_is()
    ensures { CheckIs }
{}

/// Lemma: the computed `has_move` agrees with the rules.
pub fn has_move_is()
    ensures { HasMoveIs }
{}

/// Lemma: the computed `can_declare` agrees with the rule.
pub fn can_declare_is()
    ensures { CanDeclareIs }
{}

/// Lemma: a legal move passes the turn.
pub fn turn_passes()
    ensures { TurnPasses }
{}

/// Lemma: a line of squares advances by the files and ranks of its heading, up to the edge of the board.
pub fn lines_follow_coordinates()
    ensures { LinesFollowCoordinates }
{}
