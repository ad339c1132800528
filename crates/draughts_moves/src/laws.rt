//! Properties of the rules as a whole.
ghost use Rattle.draughts_moves.specs.internal.Laws.{CheckIs, HasMoveIs, CapturesBeginWithJumps, TurnPasses};
ghost use Rattle.draughts_moves.specs.internal.Laws.{RoutesGrow};

/// Lemma: `check_of` accepts exactly the legal moves and gives every other move the refusal that the rules define.
pub fn check_is()
    ensures { CheckIs }
{}

/// Lemma: a capture route is a shorter route followed by one jump over a piece that it has not captured.
pub fn routes_grow()
    ensures { RoutesGrow }
{}

/// Lemma: the computed `has_move` agrees with the rules.
pub fn has_move_is()
    ensures { HasMoveIs }
{}

/// Lemma: a capture exists if and only if a piece of the side to move has a first jump.
pub fn captures_begin_with_jumps()
    ensures { CapturesBeginWithJumps }
{}

/// Lemma: a legal move passes the turn.
pub fn turn_passes()
    ensures { TurnPasses }
{}
