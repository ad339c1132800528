//! Scores of members against opponents in the ended games of an event (a cross table's cells).

ghost use Rattle.std.specs.Prelude.{◌≡◌, ◌≢◌, ◌≤◌, ◌+◌, ◌^◌, ◌++◌, List, None, pos, length, IfSome};
ghost use Rattle.std.specs.Option.{option_map};
ghost use Rattle.club_rows.specs.internal.NextScores.{AreChanged, AreFound, AreNext, Fit};
ghost use Rattle.club_rows.specs.internal.NextScores.{gains_of, pair_of, plus_sums, sums_found, row_with, undoing};
ghost use Rattle.club_rows.specs.internal.Pairs.{firsts_pair, pair_in, seconds_pair};
ghost use Rattle.club_rows.specs.Scores.{Meeting, meetings, own_first, own_second};

use club_core::Pairing;
use squares::Score;
use store_tables::{GameTableRow, ScoreRow};

/// The key of a row of `scores`: a member and an opponent in an event.
#[derive(Clone, Copy, Debug, PartialEq, Eq, Hash)]
pub struct Pair {
    pub event: i64,
    pub member: i64,
    pub opponent: i64,
}

/// The key of a row.
pub fn pair_in(row: &ScoreRow) -> Pair
    ensures { result ≡ pair_in row.now }
{
    Pair {
        event: row.event,
        member: row.member,
        opponent: row.opponent,
    }
}

/// The key of the row of First's score in a game.
pub fn firsts_pair(game: &GameTableRow) -> Pair
    ensures { result ≡ firsts_pair game.now }
{
    Pair {
        event: game.event,
        member: game.first,
        opponent: game.second,
    }
}

/// The key of the row of Second's score in a game.
pub fn seconds_pair(game: &GameTableRow) -> Pair
    ensures { result ≡ seconds_pair game.now }
{
    Pair {
        event: game.event,
        member: game.second,
        opponent: game.first,
    }
}

/// The result of an ended game for one of its players.
#[derive(Clone, Copy, Debug, PartialEq, Eq)]
pub enum OwnScore {
    Won,
    Drew,
    Lost,
    /// The game does not count.
    Void,
}

impl OwnScore {
    /// First's result in an ended game; a void game has no score.
    pub fn of_first(score: Option<Score>) -> OwnScore
        ensures { result ≡ own_first score }
    {
        match score {
            Some(Score::FirstWins) => OwnScore::Won,
            Some(Score::Draw) => OwnScore::Drew,
            Some(Score::SecondWins) => OwnScore::Lost,
            None => OwnScore::Void,
        }
    }

    /// Second's result in an ended game; a void game has no score.
    pub fn of_second(score: Option<Score>) -> OwnScore
        ensures { result ≡ own_second score }
    {
        match score {
            Some(Score::FirstWins) => OwnScore::Lost,
            Some(Score::Draw) => OwnScore::Drew,
            Some(Score::SecondWins) => OwnScore::Won,
            None => OwnScore::Void,
        }
    }
}

/// The rows of a game's two players: First against Second, and Second against First.
#[derive(Debug, PartialEq, Drop)]
pub struct ScoreRows {
    pub first: ScoreRow,
    pub second: ScoreRow,
}

/// Sums of points (2 for a win, 1 for a draw), wins, draws and losses.
#[derive(Clone, Copy)]
pub struct ScoreSums {
    pub points: i64,
    pub wins: i64,
    pub draws: i64,
    pub losses: i64,
}

/// The sums of one result.
pub fn gains(score: OwnScore) -> ScoreSums
    ensures { result ≡ gains_of score }
{
    let (points, wins, draws, losses) = match score {
        OwnScore::Won => (2, 1, 0, 0),
        OwnScore::Drew => (1, 0, 1, 0),
        OwnScore::Lost => (0, 0, 0, 1),
        OwnScore::Void => (0, 0, 0, 0),
    };
    ScoreSums {
        points,
        wins,
        draws,
        losses,
    }
}

/// The sums that take one result back.
pub fn undoing(score: OwnScore) -> ScoreSums
    ensures { result ≡ undoing score }
{
    let (points, wins, draws, losses) = match score {
        OwnScore::Won => (-2, -1, 0, 0),
        OwnScore::Drew => (-1, 0, -1, 0),
        OwnScore::Lost => (0, 0, 0, -1),
        OwnScore::Void => (0, 0, 0, 0),
    };
    ScoreSums {
        points,
        wins,
        draws,
        losses,
    }
}

/// The sums of a row; zeros if there is none.
pub fn sums_of(row: Option<&ScoreRow>) -> ScoreSums
    ensures { result ≡ sums_found (option_map (λ r. r.now) row.entry) }
{
    match row {
        Some(row) => ScoreSums {
            points: row.points,
            wins: row.wins,
            draws: row.draws,
            losses: row.losses,
        },
        None => ScoreSums {
            points: 0,
            wins: 0,
            draws: 0,
            losses: 0,
        },
    }
}

/// Adds sums. None on overflow.
pub fn add_sums(sums: ScoreSums, more: ScoreSums) -> Option<ScoreSums>
    ensures some { IfSome result (λ s. s ≡ plus_sums sums more) }
    ensures none { result ≡ None → ¬ Fit (plus_sums sums more) }
{
    let points = sums.points.checked_add(more.points)?;
    let wins = sums.wins.checked_add(more.wins)?;
    let draws = sums.draws.checked_add(more.draws)?;
    let losses = sums.losses.checked_add(more.losses)?;
    Some(ScoreSums {
        points,
        wins,
        draws,
        losses,
    })
}

fn row_with(pair: Pair, sums: ScoreSums) -> ScoreRow
    ensures { result ≡ row_with pair sums }
{
    ScoreRow {
        event: pair.event,
        member: pair.member,
        opponent: pair.opponent,
        points: sums.points,
        wins: sums.wins,
        draws: sums.draws,
        losses: sums.losses,
    }
}

// The row of a pair after one more result.
fn row_after(pair: Pair, found: Option<&ScoreRow>, score: OwnScore) -> Option<ScoreRow>
    ensures some { IfSome result (λ row.
        row ≡ row_with pair (plus_sums (sums_found (option_map (λ r. r.now) found.entry)) (gains_of score))) }
    ensures none { result ≡ None →
        ¬ Fit (plus_sums (sums_found (option_map (λ r. r.now) found.entry)) (gains_of score)) }
{
    let sums = add_sums(sums_of(found), gains(score))?;
    Some(row_with(pair, sums))
}

// The row of a pair after one of its results was replaced by another.
fn row_changed(
    pair: Pair,
    found: Option<&ScoreRow>,
    old: OwnScore,
    new: OwnScore,
) -> Option<ScoreRow>
    ensures some { IfSome result (λ row. row ≡ row_with pair
        (plus_sums (plus_sums (sums_found (option_map (λ r. r.now) found.entry)) (undoing old)) (gains_of new))) }
    ensures none { result ≡ None →
        Fit (plus_sums (sums_found (option_map (λ r. r.now) found.entry)) (undoing old)) →
        ¬ Fit (plus_sums (plus_sums (sums_found (option_map (λ r. r.now) found.entry)) (undoing old)) (gains_of new)) }
{
    let rest = add_sums(sums_of(found), undoing(old))?;
    let sums = add_sums(rest, gains(new))?;
    Some(row_with(pair, sums))
}

/// The key of a member and an opponent in an event.
pub fn pair_of(event: u32, member: u32, opponent: u32) -> Pair
    ensures { result ≡ pair_of event member opponent }
{
    Pair {
        event: i64::from(event),
        member: i64::from(member),
        opponent: i64::from(opponent),
    }
}

/// The rows of both players after one more ended game, from their present rows. A void game has no score. None if a sum
/// overflows.
///
/// # Guarantees
///
/// `none`: a sum overflows only after at least 2^61 results.
pub fn score_after(
    pairing: Pairing,
    score: Option<Score>,
    firsts: Option<&ScoreRow>,
    seconds: Option<&ScoreRow>,
) -> Option<ScoreRows>
    ensures some { IfSome result (λ rows. pairing.first ≢ pairing.second →
        AreNext pairing.event pairing.first pairing.second score (option_map (λ r. r.now) firsts.entry)
        (option_map (λ r. r.now) seconds.entry) rows) }
    ensures none { result ≡ None → (ms : List Meeting) →
        AreFound pairing.event pairing.first pairing.second (option_map (λ r. r.now) firsts.entry)
        (option_map (λ r. r.now) seconds.entry) ms → 2 ^ 61 ≤ length ms }
{
    let firsts_pair = pair_of(pairing.event, pairing.first, pairing.second);
    let first_row = row_after(firsts_pair, firsts, OwnScore::of_first(score))?;
    let seconds_pair = pair_of(pairing.event, pairing.second, pairing.first);
    let second_row = row_after(seconds_pair, seconds, OwnScore::of_second(score))?;
    Some(ScoreRows {
        first: first_row,
        second: second_row,
    })
}

/// The rows of both players after a game that had ended with one score has another, from their present rows. A void
/// game has no score. None if a sum overflows.
///
/// # Guarantees
///
/// `none`: a sum overflows only after at least 2^61 results.
pub fn score_changed(
    pairing: Pairing,
    old: Option<Score>,
    new: Option<Score>,
    firsts: Option<&ScoreRow>,
    seconds: Option<&ScoreRow>,
) -> Option<ScoreRows>
    ensures some { IfSome result (λ rows. pairing.first ≢ pairing.second →
        AreChanged pairing.event pairing.first pairing.second old new (option_map (λ r. r.now) firsts.entry)
        (option_map (λ r. r.now) seconds.entry) rows) }
    ensures none { result ≡ None → pairing.first ≢ pairing.second → (before after : List Meeting) →
        AreFound pairing.event pairing.first pairing.second (option_map (λ r. r.now) firsts.entry)
        (option_map (λ r. r.now) seconds.entry)
        (before ++ (meetings (pos pairing.event) (pos pairing.first) (pos pairing.second) old ++ after)) →
        2 ^ 61 ≤ length before + length after }
{
    let firsts_pair = pair_of(pairing.event, pairing.first, pairing.second);
    let first_row = row_changed(
        firsts_pair,
        firsts,
        OwnScore::of_first(old),
        OwnScore::of_first(new),
    )?;
    let seconds_pair = pair_of(pairing.event, pairing.second, pairing.first);
    let second_row = row_changed(
        seconds_pair,
        seconds,
        OwnScore::of_second(old),
        OwnScore::of_second(new),
    )?;
    Some(ScoreRows {
        first: first_row,
        second: second_row,
    })
}
