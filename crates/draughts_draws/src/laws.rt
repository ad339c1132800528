//! Properties of the ends of games.
ghost use Rattle.draughts_draws.specs.internal.Tails.{TailsBegin, TailsGoOn, TailsTellEnds};

/// Lemma: the tail can be computed ply by ply, and gives the same end as the whole game.
pub fn tails_tell_ends()
    ensures begin { TailsBegin }
    ensures go_on { TailsGoOn }
    ensures ends { TailsTellEnds }
{}
