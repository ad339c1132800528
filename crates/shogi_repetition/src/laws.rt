//! Properties of the ends of games.
ghost use Rattle.shogi_repetition.specs.internal.Laws.{EachLineHasAnEnd, NoLineHasTwoEnds, EndsAreComputed};
ghost use Rattle.shogi_repetition.specs.internal.Tails.{TailsBegin, TailsGoOn, TailsTellEnds};

/// Lemma: each sequence of moves has exactly one result, an end or that the game continues, and `end_of` computes it.
pub fn each_line_has_one_end()
    ensures some { EachLineHasAnEnd }
    ensures one { NoLineHasTwoEnds }
    ensures computed { EndsAreComputed }
{}

/// Lemma: the tail can be computed ply by ply, and gives the same end as the whole game.
pub fn tails_tell_ends()
    ensures begin { TailsBegin }
    ensures go_on { TailsGoOn }
    ensures ends { TailsTellEnds }
{}
