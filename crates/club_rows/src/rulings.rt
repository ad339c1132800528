//! Converts the arbiter's rulings on a game to their rows and back.

ghost use Rattle.std.specs.Prelude.{◌≡◌, ◌+◌, ◌<◌, ◌≤◌, ◌^◌, ℕ, List, pos, Option, Some, None, IfOk, IfSome, length};
ghost use Rattle.std.specs.Prelude.{true};
ghost use Rattle.std.specs.Prelude.{string_bytes, is_some};
ghost use Rattle.std.specs.Option.{option_map};
ghost use Rattle.club_requests.specs.declared.outside_end.OutsideEnd as outside_ends;
ghost use Rattle.club_requests.specs.declared.rulings.Ruling as kinds;
ghost use Rattle.club_requests.specs.Limits.{last_moment};
ghost use Rattle.club_requests.specs.OutsideEnd.{outside_score, outside_text};
ghost use Rattle.club_requests.specs.Rulings.{has_grant_time, verdict_in};
ghost use Rattle.club_core.specs.Rulings as core;
ghost use Rattle.club_core.specs.Rulings.{ruling_under, verdict_of, verdict_or};
ghost use Rattle.club_core.specs.Events.{Terms};
ghost use Rattle.club_core.specs.Game.{Game};
ghost use Rattle.store_tables.specs.Cells.{ruling_cells};
ghost use Rattle.club_rows.specs.Rulings.{AreRulingRows, MayFollow};
ghost use Rattle.club_rows.specs.Tables.{awarded_score, granted_seconds, ruling_number, ruling_row};
ghost use Rattle.club_rows.specs.internal.LegalRows.{IsRecordOf};
ghost use Rattle.club_rows.specs.internal.Rulings.{Adds, AreRead, HasGiven, IsBeneathIn, IsFirstOver, IsNextRuling};
ghost use Rattle.club_rows.specs.internal.Rulings.{IsRulingIn, IsRulingWith, MayComeNext, MayFollowAll, earlier};
ghost use Rattle.club_rows.specs.internal.Rulings.{given_of, is_verdict_name};
ghost use Rattle.club_rows.specs.internal.Rulings.{rulings_given};

use crate::ends::{optional_score, side_after};
use crate::numbers::{to_i64, to_moment, to_u64};
use crate::records::owned_score;
use clocks::Moment;
use club_core::{GivenRuling, StoredRulings};
use club_requests::values::MOST_RULINGS;
use club_requests::{OutsideEnd, Ruling, Verdict};
use club_rules::{Memory, Rules};
use squares::{Score, Side};
use std::alloc::Global;
use store_tables::{GameTableRow, RulingRow};

/// The rulings on a game, as their rows have them.
#[derive(Drop)]
pub struct GameRulings {
    pub given: Vec<GivenRuling>,
    /// The last award or void; None if there is none.
    pub verdict: Option<Verdict>,
    /// The first award or void; None if there is none.
    pub first: Option<GivenRuling>,
    /// The end outside the rules that the first award or void replaced; None if the game was running.
    pub beneath: Option<OutsideEnd>,
}

impl GameRulings {
    /// What a ruling under this number needs to know.
    pub fn stored_rulings(&self, number: u64) -> StoredRulings
        ensures count { length self.now.given.items < 2 ^ 32 → result.count ≡ length self.now.given.items }
        ensures asked { result.asked ≡ ruling_under (rulings_given self.now.given.items) number }
    {
        StoredRulings {
            count: count_of(self.given.as_slice()),
            asked: ruling_under(self.given.as_slice(), number),
        }
    }
}

// The number of rulings.
fn count_of(given: &[GivenRuling]) -> u32
    ensures { length given.now < 2 ^ 32 → result ≡ length given.now }
{
    match u32::try_from(given.len()) {
        Ok(count) => count,
        Err(_) => u32::MAX,
    }
}

// The ruling under a number, which counts from 1.
fn ruling_under(given: &[GivenRuling], number: u64) -> Option<Ruling>
    ensures { result ≡ ruling_under (rulings_given given.now) number }
{
    if number == 0 {
        return None;
    }
    let place = match usize::try_from(number - 1) {
        Ok(place) => place,
        Err(_) => return None,
    };
    match given.get(place) {
        Some(ruling) => Some(ruling.ruling),
        None => None,
    }
}

/// Whether the game ended by the arbiter's verdict: only then its view needs the end beneath it.
pub fn has_verdict<R: Rules>(row: &GameTableRow) -> bool
    ensures { (terms : Terms) (id : ℕ) (game : Game R.Move) → IsRecordOf R.rules terms id row.now game →
        result ≡ is_some (verdict_of game.rulings) }
{
    match &row.end {
        Some(name) => is_verdict_name(name.as_str()),
        None => false,
    }
}

// Whether this is the name of a verdict.
fn is_verdict_name(name: &str) -> bool
    ensures { result ≡ is_verdict_name name.now }
{
    match name {
        "Awarded" => true,
        "Void" => true,
        _ => false,
    }
}

// The ruling with this number of its kind, these seconds and this score.
fn ruling_with(kind: i64, seconds: u64, score: Option<Score>) -> Option<Ruling>
    ensures some { IfSome result (IsRulingWith kind seconds score) }
    ensures none { result ≡ None → (r : kinds.Ruling) → ¬ IsRulingWith kind seconds score r }
{
    match score {
        Some(score) => if kind == 2 && seconds == 0 {
            Some(Ruling::Award(score))
        } else {
            None
        },
        None => match kind {
            0 => Some(Ruling::Grant {
                side: Side::First,
                seconds,
            }),
            1 => Some(Ruling::Grant {
                side: Side::Second,
                seconds,
            }),
            3 => {
                if seconds == 0 {
                    Some(Ruling::Void)
                } else {
                    None
                }
            }
            _ => None,
        },
    }
}

/// Parses the ruling in a row: its columns `kind`, `seconds` and `result`. None if a value is out of range.
pub fn ruling_of(row: &RulingRow) -> Option<Ruling>
    ensures some { IfSome result (IsRulingIn row.now) }
    ensures none { result ≡ None → (r : kinds.Ruling) → ¬ IsRulingIn row.now r }
{
    let score = match optional_score(&row.result) {
        Some(score) => score,
        None => return None,
    };
    match to_u64(row.seconds) {
        Some(seconds) => ruling_with(row.kind, seconds, score),
        None => None,
    }
}

// Parses the columns `beneath` and `beneath_result`, given the side to move; Some(None) if they are NULL. None if they
// are not an end outside the rules with its score.
fn beneath_of(row: &RulingRow, turn: Side) -> Option<Option<OutsideEnd>>
    ensures some { IfSome result (IsBeneathIn row.now turn) }
    ensures none { result ≡ None → (end : Option outside_ends.OutsideEnd) → ¬ IsBeneathIn row.now turn end }
{
    let score = match optional_score(&row.beneath_result) {
        Some(score) => score,
        None => return None,
    };
    match &row.beneath {
        Some(name) => outside_with(name.as_str(), score, turn),
        None => match score {
            Some(_) => None,
            None => Some(None),
        },
    }
}

// The end outside the rules with this name, if it has this score.
fn outside_with(name: &str, score: Option<Score>, turn: Side) -> Option<Option<OutsideEnd>>
    ensures some { IfSome result (λ found. (end : outside_ends.OutsideEnd) × (found ≡ Some end)
        × (name.now ≡ outside_text end) × (score ≡ Some (outside_score end turn))) }
    ensures none { result ≡ None → (end : outside_ends.OutsideEnd) → name.now ≡ outside_text end →
        score ≡ Some (outside_score end turn) → ⊥ }
{
    let score = match score {
        Some(score) => score,
        None => return None,
    };
    match OutsideEnd::parse(name, Some(score)) {
        Some(end) => {
            if end.score(turn) == score {
                Some(Some(end))
            } else {
                None
            }
        }
        None => None,
    }
}

// Parses the ruling of a row with its timestamp and its ply. None if a value is out of range.
fn given_of(row: &RulingRow) -> Option<GivenRuling>
    ensures some { IfSome result (λ r. HasGiven row.now (given_of r)) }
    ensures range { IfSome result (λ r. r.moment ≤ last_moment) }
    ensures none { result ≡ None → (r : core.GivenRuling) → r.moment ≤ last_moment → ¬ HasGiven row.now r }
{
    let moment = match to_moment(row.moment) {
        Some(moment) => moment,
        None => return None,
    };
    let plies = match to_u64(row.ply) {
        Some(plies) => plies,
        None => return None,
    };
    match ruling_of(row) {
        Some(ruling) => Some(GivenRuling {
            ruling,
            moment,
            plies,
        }),
        None => None,
    }
}

// Whether the ruling gives a verdict.
pub(crate) fn is_verdict(ruling: &GivenRuling) -> bool
    ensures { result ≡ is_some (verdict_in ruling.now.ruling) }
{
    ruling.ruling.verdict().is_some()
}

// Whether the later ruling can follow the earlier one.
fn may_follow(earlier: &GivenRuling, later: &GivenRuling) -> bool
    ensures sound { result ≡ true → MayFollow (given_of earlier.now) (given_of later.now) }
    ensures complete { MayFollow (given_of earlier.now) (given_of later.now) → result ≡ true }
{
    if later.plies < earlier.plies {
        return false;
    }
    if later.moment < earlier.moment {
        return false;
    }
    if !is_verdict(earlier) {
        return true;
    }
    is_verdict(later) && later.plies == earlier.plies
}

// Whether the ruling can follow the last one of these.
fn may_follow_all(given: &[GivenRuling], later: &GivenRuling) -> bool
    ensures sound { result ≡ true → MayFollowAll (rulings_given given.now) (given_of later.now) }
    ensures complete { MayFollowAll (rulings_given given.now) (given_of later.now) → result ≡ true }
{
    match given.last() {
        Some(earlier) => may_follow(earlier, later),
        None => true,
    }
}

// Whether the row is that of the next ruling of the game, by its key.
fn has_next_key(game: u32, given: &[GivenRuling], row: &RulingRow) -> bool
    requires { length given.now < 99 }
    ensures sound { result ≡ true → (row.now.game ≡ pos game) × (row.now.number ≡ pos (length given.now + 1)) }
    ensures complete { row.now.game ≡ pos game → row.now.number ≡ pos (length given.now + 1) → result ≡ true }
{
    if row.game != i64::from(game) {
        return false;
    }
    row.number == to_i64(given.len() as u64 + 1)
}

// Whether an end outside the rules can be beneath the ruling: only beneath a first verdict.
fn is_first_over(first: Option<GivenRuling>, ruling: &GivenRuling, over: Option<OutsideEnd>) -> bool
    ensures sound { result ≡ true → IsFirstOver first (given_of ruling.now) over }
    ensures complete { IsFirstOver first (given_of ruling.now) over → result ≡ true }
{
    match over {
        Some(_) => match first {
            Some(_) => false,
            None => is_verdict(ruling),
        },
        None => true,
    }
}

// Whether the ruling can be given after those that were read, over this end.
fn may_come_next(read: &GameRulings, ruling: &GivenRuling, over: Option<OutsideEnd>) -> bool
    ensures sound { result ≡ true →
        MayComeNext (rulings_given read.now.given.items) read.now.first (given_of ruling.now) over }
    ensures complete { MayComeNext (rulings_given read.now.given.items) read.now.first (given_of ruling.now) over →
        result ≡ true }
{
    if !ruling.ruling.has_grant_time() {
        return false;
    }
    if !may_follow_all(&read.given, ruling) {
        return false;
    }
    is_first_over(read.first, ruling, over)
}

// The next ruling in order with the end beneath it. None if the row is not that of the next ruling of the game.
fn next_ruling(
    game: u32,
    read: &GameRulings,
    row: &RulingRow,
) -> Option<(GivenRuling, Option<OutsideEnd>)>
    requires { length read.now.given.items < 99 }
    ensures some { IfSome result (λ next. IsNextRuling game (rulings_given read.now.given.items) read.now.first row.now
        (given_of next.0) next.1) }
    ensures none { result ≡ None → (r : core.GivenRuling) (over : Option outside_ends.OutsideEnd) →
        ¬ IsNextRuling game (rulings_given read.now.given.items) read.now.first row.now r over }
{
    if !has_next_key(game, &read.given, row) {
        return None;
    }
    let ruling = match given_of(row) {
        Some(ruling) => ruling,
        None => return None,
    };
    let over = match beneath_of(row, side_after(ruling.plies)) {
        Some(over) => over,
        None => return None,
    };
    if may_come_next(read, &ruling, over) {
        Some((ruling, over))
    } else {
        None
    }
}

// Reads one more row. None if it is not that of the next ruling.
fn with_ruling(game: u32, read: GameRulings, row: &RulingRow) -> Result<Option<GameRulings>, Memory>
    requires { length read.given.items < 99 }
    ensures some { IfOk result (λ found. IfSome found (λ new. (r : core.GivenRuling)
        × (over : Option outside_ends.OutsideEnd)
        × IsNextRuling game (rulings_given read.given.items) read.first row.now r over × Adds read r over new)) }
    ensures none { IfOk result (λ found. found ≡ None → (r : core.GivenRuling) (over : Option outside_ends.OutsideEnd) →
        ¬ IsNextRuling game (rulings_given read.given.items) read.first row.now r over) }
{
    let (ruling, over) = match next_ruling(game, &read, row) {
        Some(next) => next,
        None => return Ok(None),
    };
    let new = added(read, ruling, over)?;
    Ok(Some(new))
}

// The first verdict of rulings with one more.
fn first_with(first: Option<GivenRuling>, ruling: &GivenRuling) -> Option<GivenRuling>
    ensures { option_map given_of result ≡ earlier (option_map given_of first)
        (verdict_or (verdict_in ruling.now.ruling) (given_of ruling.now) None) }
{
    match first {
        Some(first) => Some(first),
        None => match ruling.ruling.verdict() {
            Some(_) => Some(*ruling),
            None => None,
        },
    }
}

// The rulings with one more, over this end.
fn added(
    read: GameRulings,
    ruling: GivenRuling,
    over: Option<OutsideEnd>,
) -> Result<GameRulings, Memory>
    ensures { IfOk result (Adds read (given_of ruling) over) }
{
    let verdict = match ruling.ruling.verdict() {
        Some(verdict) => Some(verdict),
        None => read.verdict,
    };
    let first = first_with(read.first, &ruling);
    let beneath = match over {
        Some(end) => Some(end),
        None => read.beneath,
    };
    let mut given = read.given;
    given.push(ruling)?;
    Ok(GameRulings {
        given,
        verdict,
        first,
        beneath,
    })
}

/// Reads the rulings on a game from their rows, in the order of their numbers. None if the rows by themselves are not
/// those of possible rulings.
///
/// # Errors
///
/// `Memory` if out of memory.
///
/// # Guarantees
///
/// `some`: the rows are those of these rulings, over the end beneath; `none`: the rows are those of no possible
/// rulings.
pub fn read_rulings(
    alloc: Global,
    game: u32,
    rows: &[RulingRow],
) -> Result<Option<GameRulings>, Memory>
    ensures some { IfOk result (λ found. IfSome found (AreRead game rows.now)) }
    ensures none { IfOk result (λ found. found ≡ None → (rulings : List core.GivenRuling) →
        ¬ AreRulingRows game rows.now rulings) }
{
    if rows.len() > MOST_RULINGS as usize {
        return Ok(None);
    }
    let mut read = GameRulings {
        given: Vec::new(alloc),
        verdict: None,
        first: None,
        beneath: None,
    };
    for row in rows {
        read = match with_ruling(game, read, row)? {
            Some(read) => read,
            None => return Ok(None),
        };
    }
    Ok(Some(read))
}

fn owned_name(alloc: Global, end: Option<OutsideEnd>) -> Result<Option<String>, Memory>
    ensures { IfOk result (λ text. option_map (λ s. string_bytes s) text ≡ option_map outside_text end) }
{
    match end {
        Some(end) => Ok(Some(String::from_str(alloc, end.name())?)),
        None => Ok(None),
    }
}

fn score_beneath(end: Option<OutsideEnd>, turn: Side) -> Option<Score>
    ensures { result ≡ option_map (λ e. outside_score e turn) end }
{
    match end {
        Some(end) => Some(end.score(turn)),
        None => None,
    }
}

// The column `kind`.
fn ruling_number(ruling: Ruling) -> i64
    ensures { result ≡ pos (ruling_number ruling) }
{
    match ruling {
        Ruling::Grant {
            side: Side::First,
            seconds: _,
        } => 0,
        Ruling::Grant {
            side: Side::Second,
            seconds: _,
        } => 1,
        Ruling::Award(_) => 2,
        Ruling::Void => 3,
    }
}

// The seconds that the ruling grants.
fn granted_seconds(ruling: Ruling) -> u64
    ensures { result ≡ granted_seconds ruling }
{
    match ruling {
        Ruling::Grant { side: _, seconds } => seconds,
        Ruling::Award(_) => 0,
        Ruling::Void => 0,
    }
}

// The score that the ruling awards.
fn awarded_score(ruling: Ruling) -> Option<Score>
    ensures { result ≡ awarded_score ruling }
{
    match ruling {
        Ruling::Grant {
            side: _,
            seconds: _,
        } => None,
        Ruling::Award(score) => Some(score),
        Ruling::Void => None,
    }
}

/// Converts a ruling to its row. `beneath` is the end outside the rules that it replaces as the first verdict.
///
/// # Errors
///
/// `Memory` if out of memory.
pub fn ruling_row(
    alloc: Global,
    game: u32,
    number: u64,
    given: &GivenRuling,
    beneath: Option<OutsideEnd>,
) -> Result<RulingRow, Memory>
    // Numbers below 2^63 are stored exactly.
    ensures { IfOk result (λ r. number < 2 ^ 63 → given.now.plies < 2 ^ 63 →
        has_grant_time given.now.ruling ≡ true →
        ruling_cells r ≡ ruling_row game number (given_of given.now) beneath) }
{
    let turn = side_after(given.plies);
    let result = owned_score(alloc, awarded_score(given.ruling))?;
    let name = owned_name(alloc, beneath)?;
    let beneath_result = owned_score(alloc, score_beneath(beneath, turn))?;
    Ok(RulingRow {
        game: i64::from(game),
        number: to_i64(number),
        moment: to_i64(given.moment.seconds()),
        ply: to_i64(given.plies),
        kind: ruling_number(given.ruling),
        seconds: to_i64(granted_seconds(given.ruling)),
        result,
        beneath: name,
        beneath_result,
    })
}
