//! The field of an event: each member with a game in it, running or ended, in the order of places.

ghost use Rattle.std.specs.Prelude.{◌≡◌, ◌<◌, ◌^◌, ◌⊎◌, ℕ, List, Err, None, IfOk, IfSome, map};
ghost use Rattle.std.specs.Ordering.{is_lt};
ghost use Rattle.cross_tables.specs.declared.standings.StandingsFault.TheVariants as fault;
ghost use Rattle.cross_tables.specs.declared.sums.OpponentScore.{OpponentScore};
ghost use Rattle.cross_tables.specs.declared.field.FieldLine.{FieldLine};
ghost use Rattle.cross_tables.specs.Totals.{AreTotals, totals};
ghost use Rattle.cross_tables.specs.internal.Totals.{Fit};
ghost use Rattle.cross_tables.specs.Field.{entrants, is_entrant, is_placed_above, line_of, plays, plays_on};
ghost use Rattle.cross_tables.specs.Field.{running_games, sonneborn_berger, weighted, IsField};

use crate::standings::{Standing, Standings, StandingsFault};
use crate::sums::{OpponentScore, ScoreTotals};
use std::alloc::Global;
use std::cmp::Ordering;

/// A game of an event, without its moves.
#[derive(Clone, Copy, Debug, PartialEq, Eq)]
pub struct EventGame {
    pub first: u32,
    pub second: u32,
    pub is_over: bool,
}

/// A member with a game in an event.
#[derive(Clone, Copy, Debug, PartialEq, Eq)]
pub struct FieldLine {
    /// The member with the totals of its ended games; zeros if none has ended.
    pub standing: Standing,
    /// The number of running games.
    pub running: u64,
    /// The sum, over the opponents, of the points scored against the opponent times the opponent's points.
    pub sonneborn_berger: u64,
}

// Whether the member is a player of the game.
fn plays(member: u32, game: &EventGame) -> bool
    ensures { result ≡ plays member game.now }
{
    game.first == member || game.second == member
}

// Whether the member is a player of the game, and it has not ended.
fn plays_on(member: u32, game: &EventGame) -> bool
    ensures { result ≡ plays_on member game.now }
{
    plays(member, game) && !game.is_over
}

// Whether the member has a game in the event.
fn is_entrant(member: u32, games: &[EventGame]) -> bool
    ensures { result ≡ is_entrant games.now member }
{
    games.iter().any(|game| plays(member, game))
}

// The members with a game in the event, of those with the numbers from 1 to the last.
fn entrants(alloc: Global, last: u32, games: &[EventGame]) -> Result<Vec<u32>, StandingsFault>
    ensures members { IfOk result (λ members. members.items ≡ entrants last games.now) }
    ensures fault { result ≡ Err fault.TooMany → ⊥ }
{
    let mut members = Vec::new(alloc);
    for before in 0..last {
        let member = before + 1;
        if !is_entrant(member, games) {
            continue;
        }
        members.push(member)?;
    }
    Ok(members)
}

// The number of a member's running games.
fn running_games(member: u32, games: &[EventGame]) -> u64
    ensures { result ≡ running_games member games.now }
{
    games.iter().filter(|game| plays_on(member, game)).count() as u64
}

// The totals of a member; zeros if it has no ended game.
fn totals_of(member: u32, standings: &Standings) -> ScoreTotals
    ensures { (rows : List OpponentScore) → AreTotals standings.now rows → result ≡ totals member rows }
{
    match standings.place_of(member) {
        Some(place) => standings.as_slice()[place].sums,
        None => ScoreTotals {
            points: 0,
            wins: 0,
            draws: 0,
            losses: 0,
        },
    }
}

// What a score row adds to the Sonneborn-Berger number of a member.
fn weighted(member: u32, standings: &Standings, row: &OpponentScore) -> u64
    ensures { (rows : List OpponentScore) → AreTotals standings.now rows → result ≡ weighted member rows row.now }
{
    if row.member != member {
        return 0;
    }
    let opponent = totals_of(row.opponent, standings);
    u64::from(row.sums.points) * u64::from(opponent.points)
}

// The Sonneborn-Berger number of a member, or `None` if it overflows.
fn sonneborn_berger(member: u32, standings: &Standings, rows: &[OpponentScore]) -> Option<u64>
    ensures some { AreTotals standings.now rows.now →
        IfSome result (λ sum. sum ≡ sonneborn_berger member rows.now) }
    ensures none { AreTotals standings.now rows.now → result ≡ None → ¬ (sonneborn_berger member rows.now < 2 ^ 64) }
{
    let mut sum = 0_u64;
    for row in rows {
        let Some(raised) = sum.checked_add(weighted(member, standings, row)) else {
            return None;
        };
        sum = raised;
    }
    Some(sum)
}

// The line of a member, or `None` if its Sonneborn-Berger number overflows.
fn line_of(
    member: u32,
    standings: &Standings,
    rows: &[OpponentScore],
    games: &[EventGame],
) -> Option<FieldLine>
    ensures some { AreTotals standings.now rows.now →
        IfSome result (λ line. line ≡ line_of rows.now games.now member) }
    ensures none { AreTotals standings.now rows.now → result ≡ None → ¬ (sonneborn_berger member rows.now < 2 ^ 64) }
{
    let sonneborn_berger = sonneborn_berger(member, standings, rows)?;
    Some(FieldLine {
        standing: Standing {
            member,
            sums: totals_of(member, standings),
        },
        running: running_games(member, games),
        sonneborn_berger,
    })
}

// The lines of these members.
fn lines_of(
    alloc: Global,
    members: &[u32],
    standings: &Standings,
    rows: &[OpponentScore],
    games: &[EventGame],
) -> Result<Vec<FieldLine>, StandingsFault>
    ensures lines { AreTotals standings.now rows.now →
        IfOk result (λ lines. lines.items ≡ map (line_of rows.now games.now) members.now) }
    ensures too_many { AreTotals standings.now rows.now → result ≡ Err fault.TooMany → (member : ℕ)
        × ¬ (sonneborn_berger member rows.now < 2 ^ 64) }
{
    let mut lines = Vec::new(alloc);
    for member in members {
        let Some(line) = line_of(*member, standings, rows, games) else {
            return Err(StandingsFault::TooMany);
        };
        lines.push(line)?;
    }
    Ok(lines)
}

// The order of places: more points, then more wins, then the higher Sonneborn-Berger number, then the lower member
// number.
fn order(one: &FieldLine, other: &FieldLine) -> Ordering
    ensures { is_lt result ≡ is_placed_above one.now other.now }
{
    let (a, b) = (&one.standing, &other.standing);
    let by_points = b.sums.points.cmp(&a.sums.points);
    let by_wins = b.sums.wins.cmp(&a.sums.wins);
    let by_opponents = other.sonneborn_berger.cmp(&one.sonneborn_berger);
    let by_member = a.member.cmp(&b.member);
    by_points.then(by_wins).then(by_opponents).then(by_member)
}

/// The field of an event from its score rows and its games: a line for each member with a game, of those with the
/// numbers from 1 to `last`, in the order of places.
///
/// # Errors
///
/// - `Memory`: out of memory.
/// - `TooMany`: a sum of some member does not fit in a `u32`, or its Sonneborn-Berger number in a `u64`.
///
/// # Guarantees
///
/// `field` and `only`: the result is the one list of these lines in the order of places.
pub fn field_lines(
    alloc: Global,
    last: u32,
    rows: &[OpponentScore],
    games: &[EventGame],
) -> Result<Vec<FieldLine>, StandingsFault>
    ensures field { IfOk result (λ lines. IsField last rows.now games.now lines.items) }
    // There is no other field.
    ensures only { IfOk result (λ lines. (others : List FieldLine) → IsField last rows.now games.now others →
        others ≡ lines.items) }
    ensures too_many { result ≡ Err fault.TooMany → (member : ℕ)
        × (¬ Fit (totals member rows.now) ⊎ ¬ (sonneborn_berger member rows.now < 2 ^ 64)) }
{
    let standings = Standings::of_rows(alloc, rows)?;
    let members = entrants(alloc, last, games)?;
    let mut lines = lines_of(alloc, &members, &standings, rows, games)?;
    lines.sort_unstable_by(|one, other| order(one, other));
    Ok(lines)
}
