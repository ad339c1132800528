//! Lemmas: a diagram determines its position.
ghost use Rattle.diagrams.specs.internal.Laws.{TellsDraughts, TellsShogi, TellsBod};

/// Lemma: draughts positions with the same diagram and the same side to move are equal.
pub fn tells_draughts()
    ensures { TellsDraughts }
{}

/// Lemma: shogi positions with the same diagram and the same side to move are equal.
pub fn tells_shogi()
    ensures { TellsShogi }
{}

/// Lemma: shogi positions with the same BOD diagram are equal.
pub fn tells_bod()
    ensures { TellsBod }
{}
