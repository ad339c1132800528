//! Properties of the pairings that `round` and `rounds` return.

ghost use Rattle.std.specs.Prelude.{◌≡◌, ◌≢◌, ◌≤◌, ◌+◌, true, false};
ghost use Rattle.pairings.specs.internal.Fide.{fide_of_six};
ghost use Rattle.pairings.specs.internal.Laws.{times_first, games_as_first, games_as_second, games_with};
ghost use Rattle.pairings.specs.Table.{games, all_games, rounds_of};

/// Lemma: two players meet exactly once in a single round robin, and once with each side in a double one.
pub fn pairs_meet(players: u32, one: u32, other: u32)
    requires few { players ≤ 32 }
    requires two { 2 ≤ players }
    requires one_from { 1 ≤ one }
    requires one_to { one ≤ players }
    requires other_from { 1 ≤ other }
    requires other_to { other ≤ players }
    requires apart { one ≢ other }
    ensures once { times_first one other (all_games players false) + times_first other one (all_games players false)
        ≡ 1 }
    ensures with_each_side { times_first one other (all_games players true) ≡ 1 }
{}

/// Lemma: no player has two games in one round.
pub fn nobody_plays_twice(players: u32, round: u32, player: u32)
    requires few { players ≤ 32 }
    requires two { 2 ≤ players }
    requires first { 1 ≤ round }
    requires last { round ≤ rounds_of players true }
    requires from { 1 ≤ player }
    requires to { player ≤ players }
    ensures { games_with player (games players round) ≤ 1 }
{}

/// Lemma: a player's games as First and as Second differ by at most one, and are equal in number in a double round
/// robin.
pub fn sides_are_even(players: u32, player: u32)
    requires few { players ≤ 32 }
    requires two { 2 ≤ players }
    requires from { 1 ≤ player }
    requires to { player ≤ players }
    ensures firsts { games_as_first player (all_games players false)
        ≤ games_as_second player (all_games players false) + 1 }
    ensures seconds { games_as_second player (all_games players false)
        ≤ games_as_first player (all_games players false) + 1 }
    ensures equal { games_as_first player (all_games players true) ≡ games_as_second player (all_games players true) }
{}

/// Lemma: the pairings of six players are those of FIDE's table.
#[tactic(auto, using(crate::proofs::OfSix::as_fide))]
pub fn six_play_as_in_fide()
    ensures { all_games 6 false ≡ fide_of_six }
{}
