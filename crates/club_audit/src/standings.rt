//! Checks the rows of scores against the results of the games.

ghost use Rattle.std.specs.Prelude.{◌≡◌, ◌<◌, ◌^◌, ◌++◌, ◌∷◌, [], List, Option, Some, true, IfOk};
ghost use Rattle.std.specs.Prelude.{length, map, string_bytes};
ghost use Rattle.std.specs.Option.{option_map};
ghost use Rattle.squares.specs.declared.sides.Score.{Score};
ghost use Rattle.squares.specs.Sides.{score_text};
ghost use Rattle.store_tables.specs.internal.Cells.{score_cells};
ghost use Rattle.club_rows.specs.Club.{ClubState, both_games};
ghost use Rattle.club_rows.specs.internal.NextScores.{sums_found};
ghost use Rattle.club_rows.specs.Scores.{Meeting, scores_in};
ghost use Rattle.club_rows.specs.EachOnce.{AreEachOnce};
ghost use Rattle.club_audit.specs.internal.Standings.{AreGamesOf, AreStandings, AreTold, Clears, Tells};
ghost use Rattle.club_audit.specs.internal.Standings.{sums_or_none};
ghost use Rattle.club_rows.specs.internal.Pairs.{sums_at};

use club_rows::ends::score_of;
use club_rows::scores::{
    OwnScore, Pair, ScoreSums, add_sums, firsts_pair, gains, pair_in, seconds_pair, sums_of,
};
use club_rules::Memory;
use squares::Score;
use std::alloc::Global;
use std::collections::HashMap;
use store_tables::{GameTableRow, ScoreRow};

// The sums of a pair; zeros if there are none.
fn sums_in(standings: &HashMap<Pair, ScoreSums>, pair: &Pair) -> ScoreSums
    ensures { result ≡ sums_or_none (sums_at standings.now pair.now) }
{
    match standings.get(pair).copied() {
        Some(sums) => sums,
        None => sums_of(None),
    }
}

// Adds a result to the sums of a pair. An overflow, which no club reaches, changes nothing.
fn add(standings: &mut HashMap<Pair, ScoreSums>, pair: Pair, score: OwnScore) -> Result<(), Memory>
    ensures { IfOk result (λ done. (ms : List Meeting) → AreStandings standings.old ms → length ms < 2 ^ 61 →
        AreStandings standings.new (ms ++ record { pair = pair; score = score } ∷ [])) }
{
    let sums = sums_in(standings, &pair);
    match add_sums(sums, gains(score)) {
        Some(sums) => {
            standings.insert(pair, sums)?;
            Ok(())
        }
        None => Ok(()),
    }
}

// The score of a game. None while it runs and if it is void, or if the text is no score.
fn told_score(game: &GameTableRow) -> Option<Score>
    ensures { (score : Option Score) →
        option_map (λ s. string_bytes s) game.now.result ≡ option_map score_text score → result ≡ score }
{
    match &game.result {
        Some(text) => score_of(text.as_str()),
        None => None,
    }
}

// Adds the result of an ended game for both players.
fn add_game(standings: &mut HashMap<Pair, ScoreSums>, game: &GameTableRow) -> Result<(), Memory>
    ensures { IfOk result (λ done. (ms own : List Meeting) → AreStandings standings.old ms → Tells game.now own →
        length (ms ++ own) < 2 ^ 61 → AreStandings standings.new (ms ++ own)) }
{
    match &game.end {
        Some(_) => {
            let score = told_score(game);
            add(standings, firsts_pair(game), OwnScore::of_first(score))?;
            add(standings, seconds_pair(game), OwnScore::of_second(score))?;
            Ok(())
        }
        None => Ok(()),
    }
}

// The sums of all pairs in these games.
fn standings_of(alloc: Global, games: &[GameTableRow]) -> Result<HashMap<Pair, ScoreSums>, Memory>
    ensures { IfOk result (λ standings. (ms : List Meeting) → AreTold games.now ms → length ms < 2 ^ 61 →
        AreStandings standings ms) }
{
    let mut standings = HashMap::new(alloc);
    for game in games {
        add_game(&mut standings, game)?;
    }
    Ok(standings)
}

fn are_sums_of(sums: ScoreSums, row: &ScoreRow) -> bool
    ensures sound { result ≡ true → sums ≡ sums_found (Some row.now) }
    ensures complete { sums ≡ sums_found (Some row.now) → result ≡ true }
{
    sums.points == row.points
        && sums.wins == row.wins
        && sums.draws == row.draws
        && sums.losses == row.losses
}

// Whether each row has the sums of its pair, and no pair is left.
fn are_those(standings: HashMap<Pair, ScoreSums>, rows: &[ScoreRow]) -> bool
    ensures sound { result ≡ true → Clears (λ pair. sums_at standings pair) rows.now }
    ensures complete { Clears (λ pair. sums_at standings pair) rows.now → result ≡ true }
{
    let mut left = standings;
    for row in rows {
        match left.remove(&pair_in(row)) {
            Some(sums) => {
                if !are_sums_of(sums, row) {
                    return false;
                }
            }
            None => return false,
        }
    }
    left.is_empty()
}

/// Whether the rows are the scores of these games, one for each pair, in any order.
///
/// # Errors
///
/// `Memory` if out of memory.
pub fn are_scores(alloc: Global, games: &[GameTableRow], rows: &[ScoreRow]) -> Result<bool, Memory>
    ensures sound { IfOk result (λ are. are ≡ true → (s : ClubState) → AreGamesOf s games.now →
        AreEachOnce (map score_cells rows.now) (scores_in both_games s.games)) }
    ensures complete { IfOk result (λ are. (s : ClubState) → AreGamesOf s games.now →
        AreEachOnce (map score_cells rows.now) (scores_in both_games s.games) → are ≡ true) }
{
    let standings = standings_of(alloc, games)?;
    Ok(are_those(standings, rows))
}
