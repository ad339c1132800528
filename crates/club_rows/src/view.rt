//! Checks all rows of a game by replay, and builds its view.

ghost use Rattle.std.specs.List.{list_all};
ghost use Rattle.std.specs.Prelude.{◌≡◌, ◌≤◌, ◌<◌, ◌+◌, ◌^◌, ℕ, pos, List, Option, None, Some, true, IfOk, IsTrue};
ghost use Rattle.std.specs.Prelude.{length};
ghost use Rattle.std.specs.Prelude.{string_bytes, is_some, not, ◌&&◌, ◌==◌};
ghost use Rattle.std.specs.Option.{option_map};
ghost use Rattle.club_rules.specs.Line.{IsPlayedLine, position_after};
ghost use Rattle.club_requests.specs.declared.outside_end.OutsideEnd.{OutsideEnd};
ghost use Rattle.store_tables.specs.declared.rows.RulingRow.{RulingRow};
ghost use Rattle.club_requests.specs.Limits.{is_budget, is_increment};
ghost use Rattle.club_core.specs.Events as core;
ghost use Rattle.club_core.specs.Game.{Game, Entry, end_with, score_with};
ghost use Rattle.club_core.specs.Rulings.{verdict_of};
ghost use Rattle.club_core.specs.View.{IsRowOf, IsSound, Shows, terms_of};
ghost use Rattle.club_core.specs.internal.View.{rule_in};
ghost use Rattle.club_rows.specs.Tables.{end_name_text};
ghost use Rattle.club_rows.specs.internal.Columns.{HasReplayed, IsNamedIn, IsOutsideIn, columns_in, game_in};
ghost use Rattle.club_rows.specs.internal.Replay.{HasRoom, IsCounted, IsReplayed, ReplaysFrom, clocks_replayed};
ghost use Rattle.club_rows.specs.internal.Replay.{left_in, terms_given};
ghost use Rattle.club_rows.specs.LegalRows.{AreRowsOf};
ghost use Rattle.club_rows.specs.Rulings.{ArePossible};
ghost use Rattle.club_rows.specs.internal.LegalRows.{IsSoundIfShown, IsUnstarted, IsWithoutId};
ghost use Rattle.club_rows.specs.internal.LegalRows.{IsWrongAsTold, ShowsGame, StandsAs};
ghost use Rattle.club_rows.specs.internal.Ruled.{are_legal, is_after_loss, is_between, is_recorded, may_be_given};
ghost use Rattle.club_rows.specs.internal.Ruled.{moment_in, names_record};
ghost use Rattle.club_rows.specs.internal.Rulings.{AreRead, given_of, rulings_given};
ghost use Rattle.club_rows.specs.internal.MayStand.{may_have_key, may_have_offer, may_have_end, may_declare};
ghost use Rattle.club_rows.specs.internal.MayStand.{may_stand};

use crate::columns::{GameColumns, stored_game};
use crate::ends::end_name;
use crate::numbers::{id, to_i64, to_moment};
use crate::records::to_owned_text;
use crate::replay::{Opening, Replayed, Terms, end_of, replay};
use crate::rulings::{GameRulings, is_verdict, read_rulings};
use crate::tally::PositionCounts;
use clocks::Moment;
use club_core::{GameEnd, GameRow, GameView, GivenRuling};
use club_requests::{OutsideEnd, Verdict, is_name};
use club_rules::{Memory, Rules};
use squares::{Score, Side};
use std::alloc::Global;
use store_tables::{GameTableRow, MoveRow, RulingRow};

// The end outside the rules that the row names.
fn named_in(stored: &GameColumns<'_>) -> Option<OutsideEnd>
    ensures { IsNamedIn (columns_in stored.now) result }
{
    match stored.end {
        Some(name) => OutsideEnd::parse(name, stored.result),
        None => None,
    }
}

// The end outside the rules: the one beneath the verdict, or the one that the row names if the rules gave none.
pub(crate) fn outside_in<E: Copy + Drop>(
    stored: &GameColumns<'_>,
    ruled: Option<E>,
    verdict: Option<Verdict>,
    beneath: Option<OutsideEnd>,
) -> Option<OutsideEnd>
    ensures { IsOutsideIn (columns_in stored.now) ruled verdict beneath result }
{
    match verdict {
        Some(_) => beneath,
        None => match ruled {
            Some(_) => None,
            None => named_in(stored),
        },
    }
}

// The end of a game: that of the rules, else the arbiter's, else the one outside the rules.
pub(crate) fn end_with<E: Copy + Drop>(
    ruled: Option<E>,
    verdict: Option<Verdict>,
    outside: Option<OutsideEnd>,
) -> Option<GameEnd<E>>
    ensures { result ≡ end_with ruled verdict outside }
{
    match ruled {
        Some(end) => Some(GameEnd::Rule(end)),
        None => match verdict {
            Some(verdict) => Some(GameEnd::Verdict(verdict)),
            None => match outside {
                Some(end) => Some(GameEnd::Outside(end)),
                None => None,
            },
        },
    }
}

// The score of an end, given the side to move; a void game has none.
pub(crate) fn score_of_end<R: Rules>(end: &Option<GameEnd<R::End>>, turn: Side) -> Option<Score>
    ensures { result ≡ score_with R.rules end.now turn }
{
    match end {
        Some(GameEnd::Rule(end)) => Some(R::outcome(end, turn)),
        Some(GameEnd::Verdict(verdict)) => verdict.score(),
        Some(GameEnd::Outside(end)) => Some(end.score(turn)),
        None => None,
    }
}

/// A replayed game: its view, its moves and its repetition counts.
#[derive(Drop)]
pub struct CheckedGame<R: Rules> {
    pub view: GameView<R>,
    pub line: Vec<R::Move>,
    pub tally: PositionCounts,
}

/// The outcome of the check of a game's rows.
#[derive(Drop)]
pub enum CheckedRows<R: Rules> {
    /// The rows are those of this legal game.
    Game(CheckedGame<R>),
    /// The rows of the moves are wrong.
    WrongMoves,
    /// The rows of the rulings are wrong: by themselves, or beside legal moves.
    WrongRulings,
    /// The moves and the rulings are legal, but the row in `games` is wrong.
    WrongGame,
}

// The row of the game logic for a replayed game, with key, players, offer and end from the stored row.
fn row_replayed<R: Rules>(
    alloc: Global,
    stored: &GameColumns<'_>,
    game: &Replayed<R>,
    read: &GameRulings,
) -> Result<GameRow<R::End>, Memory>
    requires verdict { read.now.verdict ≡ verdict_of (rulings_given read.now.given.items) }
    requires plies { length game.now.line.items ≤ 600 }
    requires line { IsPlayedLine R.rules R.rules.start game.now.line.items }
    requires position { game.now.position ≡ position_after R.rules R.rules.start game.now.line.items }
    requires counts { IsCounted R.rules game.now }
    ensures plies { IfOk result (λ row. row.plies ≡ length game.now.line.items) }
    ensures left_first { IfOk result (λ row. row.left_first ≡ game.now.left_first) }
    ensures left_second { IfOk result (λ row. row.left_second ≡ game.now.left_second) }
    ensures shows { IfOk result (λ row. (outside : Option OutsideEnd) ×
        IsOutsideIn (columns_in stored.now) (R.rules.judge R.rules.start game.now.line.items) read.now.verdict
        read.now.beneath outside ×
        ((terms : core.Terms) (entries : List (Entry R.Move)) →
        ReplaysFrom R.rules terms (rulings_given read.now.given.items) stored.now.start entries game.now →
        IsRowOf R.rules terms (game_in (columns_in stored.now) outside (rulings_given read.now.given.items) entries)
        row)) }
{
    let ruled = end_of(game);
    let outside = outside_in(stored, ruled, read.verdict, read.beneath);
    let end = end_with(ruled, read.verdict, outside);
    let result = score_of_end::<R>(&end, R::turn(&game.position));
    Ok(GameRow {
        key: to_owned_text(alloc, stored.key)?,
        event: stored.event,
        first: stored.first,
        second: stored.second,
        start: stored.start,
        since: game.since,
        plies: game.line.len() as u32,
        left_first: game.left_first,
        left_second: game.left_second,
        track: R::track_numbers(&game.track),
        offer: stored.offer,
        outside,
        end,
        result,
        position: R::write_position(alloc, &game.position)?,
    })
}

// The view of a replayed game.
fn viewed<R: Rules>(
    alloc: Global,
    stored: &GameColumns<'_>,
    terms: Terms,
    game: Replayed<R>,
    read: &GameRulings,
) -> Result<CheckedGame<R>, Memory>
    requires verdict { read.now.verdict ≡ verdict_of (rulings_given read.now.given.items) }
    requires increment { terms.increment ≤ 2592000 }
    requires plies { length game.line.items ≤ 600 }
    requires room { HasRoom (clocks_replayed game) }
    requires game { IsReplayed R.rules (length game.line.items) game }
    ensures sound { IfOk result (λ played. IsSound R.rules played.view) }
    ensures terms { IfOk result (λ played. terms_of played.view ≡ terms_given terms) }
    ensures line { IfOk result (λ played. played.line.items ≡ game.line.items) }
    ensures tally { IfOk result (λ played. played.tally ≡ game.tally) }
    ensures shows { IfOk result (λ played. (outside : Option OutsideEnd) ×
        IsOutsideIn (columns_in stored.now) (R.rules.judge R.rules.start game.line.items) read.now.verdict
        read.now.beneath outside ×
        ((entries : List (Entry R.Move)) →
        ReplaysFrom R.rules (terms_given terms) (rulings_given read.now.given.items) stored.now.start entries game →
        Shows R.rules (game_in (columns_in stored.now) outside (rulings_given read.now.given.items) entries)
        played.view)) }
{
    let row = row_replayed(alloc, stored, &game, read)?;
    let view = GameView {
        row,
        budget: terms.budget,
        increment: terms.increment,
        declares: terms.declares,
        position: game.position,
        track: game.track,
        asked: None,
    };
    Ok(CheckedGame {
        view,
        line: game.line,
        tally: game.tally,
    })
}

// Whether the key is absent or a legal name.
fn may_have_key(key: &Option<String>) -> bool
    ensures { result ≡ may_have_key (option_map (λ s. string_bytes s) key.now) }
{
    match key {
        Some(key) => is_name(key.as_str()),
        None => true,
    }
}

// Whether the rules decided the end.
fn is_ruled<E: Copy + Drop>(end: &Option<GameEnd<E>>) -> bool
    ensures { result ≡ is_some (rule_in end.now) }
{
    match end {
        Some(GameEnd::Rule(_)) => true,
        _ => false,
    }
}

// Whether the offer is absent, or is for the next ply of a game that the rules have not ended and that has draw offers.
fn may_have_offer<R: Rules>(row: &GameRow<R::End>) -> bool
    requires { row.now.plies ≤ 600 }
    ensures { result ≡ may_have_offer R.rules.has_draw_offers row.now.plies
        (is_some (rule_in row.now.end)) row.now.offer }
{
    match row.offer {
        Some(offer) => { R::has_draw_offers() && !is_ruled(&row.end) && offer.ply == row.plies + 1 }
        None => true,
    }
}

// Whether the row has a key, no offer, and all moves at the start, as that of an imported game.
fn may_be_imported<E: Copy + Drop>(row: &GameRow<E>) -> bool
    ensures { result ≡ (is_some row.now.key && not (is_some row.now.offer) && row.now.since == row.now.start) }
{
    row.key.is_some() && !row.offer.is_some() && row.since.seconds() == row.start.seconds()
}

// Whether the end outside the rules is possible.
fn may_have_end<E: Copy + Drop>(row: &GameRow<E>, declares: bool) -> bool
    ensures { result ≡ may_have_end (is_some row.now.key) (is_some row.now.offer) declares row.now.start
        row.now.since row.now.outside }
{
    match row.outside {
        Some(end) => end.is_allowed(row.offer.is_some(), declares, may_be_imported(row)),
        None => true,
    }
}

// Whether the side to move may declare a win.
fn may_declare<R: Rules>(view: &GameView<R>) -> bool
    ensures { result ≡ may_declare R.rules view.now }
{
    view.declares && R::can_declare(&view.position)
}

// Whether the row's key, players, offer and end are possible.
fn may_stand<R: Rules>(row: &GameRow<R::End>, declares: bool) -> bool
    requires { row.now.plies ≤ 600 }
    ensures { result ≡ may_stand R.rules.has_draw_offers declares row.now }
{
    may_have_key(&row.key)
        && row.first != row.second
        && may_have_offer::<R>(row)
        && may_have_end(row, declares)
}

// Whether the two optional scores are equal.
fn is_score(one: Option<Score>, other: Option<Score>) -> bool
    ensures sound { result ≡ true → one ≡ other }
    ensures complete { one ≡ other → result ≡ true }
{
    match one {
        Some(one) => match other {
            Some(other) => one == other,
            None => false,
        },
        None => other.is_none(),
    }
}

// Whether the stored name is that of the end.
fn is_end<R: Rules>(end: &Option<GameEnd<R::End>>, stored: Option<&str>) -> bool
    ensures sound { result ≡ true → option_map (λ s. s.now) stored.entry ≡ option_map (end_name_text R.rules) end.now }
    ensures complete { option_map (λ s. s.now) stored.entry ≡ option_map (end_name_text R.rules) end.now →
        result ≡ true }
{
    match end {
        Some(end) => match stored {
            Some(name) => name == end_name::<R>(end),
            None => false,
        },
        None => stored.is_none(),
    }
}

// Whether the stored row has the values that follow from the replayed moves.
fn has_replayed<R: Rules>(row: &GameRow<R::End>, stored: &GameColumns<'_>) -> bool
    ensures sound { result ≡ true → HasReplayed R.rules row.now (columns_in stored.now) }
    ensures complete { HasReplayed R.rules row.now (columns_in stored.now) → result ≡ true }
{
    stored.since.seconds() == row.since.seconds()
        && stored.plies == row.plies
        && stored.left_first == row.left_first
        && stored.left_second == row.left_second
        && stored.track.0 == row.track.0
        && stored.track.1 == row.track.1
        && is_end::<R>(&row.end, stored.end)
        && is_score(stored.result, row.result)
        && stored.position == row.position.as_str()
}

// Checks the stored row against the replayed game.
fn stands<R: Rules>(stored: &GameColumns<'_>, played: CheckedGame<R>) -> CheckedRows<R>
    requires { played.view.row.plies ≤ 600 }
    ensures { StandsAs R.rules (columns_in stored.now) played result }
{
    let declares = may_declare(&played.view);
    if !may_stand::<R>(&played.view.row, declares) {
        return CheckedRows::WrongGame;
    }
    if !has_replayed::<R>(&played.view.row, stored) {
        return CheckedRows::WrongGame;
    }
    CheckedRows::Game(played)
}

// The timestamp of the last of so many plies, or of the start.
fn moment_at(start: Moment, moves: &[MoveRow], plies: usize) -> i64
    requires { plies ≤ length moves.now }
    ensures { result ≡ moment_in start moves.now plies }
{
    if plies == 0 {
        return to_i64(start.seconds());
    }
    moves[plies - 1].moment
}

// Whether the ruling was given after so many plies and before the next one.
fn is_between(ruling: &GivenRuling, start: Moment, moves: &[MoveRow], plies: usize) -> bool
    requires { plies ≤ length moves.now }
    ensures { result ≡ is_between start moves.now plies ruling.now.moment }
{
    let moment = to_i64(ruling.moment.seconds());
    if moment < moment_at(start, moves, plies) {
        return false;
    }
    match moves.get(plies) {
        Some(next) => moment <= next.moment,
        None => true,
    }
}

// Whether the ruling is legal beside these moves. A game that the rules ended has no ruling after its last move, and
// one with the score of an imported record has no grant.
fn may_be_given(
    ruling: &GivenRuling,
    start: Moment,
    moves: &[MoveRow],
    ruled: bool,
    recorded: bool,
) -> bool
    ensures { result ≡ may_be_given start moves.now ruled recorded (given_of ruling.now) }
{
    let plies = match usize::try_from(ruling.plies) {
        Ok(plies) => plies,
        Err(_) => return false,
    };
    if plies > moves.len() || (ruled && plies == moves.len()) {
        return false;
    }
    if is_verdict(ruling) {
        if plies != moves.len() {
            return false;
        }
    } else if recorded {
        return false;
    }
    is_between(ruling, start, moves, plies)
}

// Whether all rulings are legal beside these moves.
fn may_all_be_given(
    given: &[GivenRuling],
    start: Moment,
    moves: &[MoveRow],
    ruled: bool,
    recorded: bool,
) -> bool
    ensures { result ≡ list_all (λ r. may_be_given start moves.now ruled recorded (given_of r)) given.now }
{
    given.iter().all(|ruling| may_be_given(ruling, start, moves, ruled, recorded))
}

// Whether the score of the game is that of an imported record: beneath its verdict, or by the name of its end.
fn is_recorded(read: &GameRulings, ruled: bool, row: &GameTableRow) -> bool
    ensures { result ≡ is_recorded read.now.beneath (is_some read.now.verdict) ruled
        (option_map (λ s. string_bytes s) row.now.end) }
{
    match read.beneath {
        Some(OutsideEnd::Recorded(_)) => true,
        Some(_) => false,
        None => { read.verdict.is_none() && !ruled && names_record(&row.end) }
    }
}

// Whether this is the name of the end of an imported record.
fn names_record(end: &Option<String>) -> bool
    ensures { result ≡ names_record (option_map (λ s. string_bytes s) end.now) }
{
    match end {
        Some(name) => name.as_str() == "Recorded",
        None => false,
    }
}

// Whether the first verdict over a loss on time came after the time limit was exceeded.
fn is_after_loss<R: Rules>(read: &GameRulings, game: &Replayed<R>) -> bool
    requires { HasRoom (clocks_replayed game.now) }
    ensures { result ≡ is_after_loss read.now.beneath (option_map given_of read.now.first)
        (game.now.since + left_in game.now (R.rules.turn game.now.position)) }
{
    match read.beneath {
        Some(OutsideEnd::Time) => match read.first {
            Some(first) => {
                let left = match R::turn(&game.position) {
                    Side::First => game.left_first,
                    Side::Second => game.left_second,
                };
                game.since.seconds() + left < first.moment.seconds()
            }
            None => true,
        },
        _ => true,
    }
}

// Whether the rulings are legal in the replayed game.
fn are_legal<R: Rules>(
    read: &GameRulings,
    game: &Replayed<R>,
    start: Moment,
    moves: &[MoveRow],
    row: &GameTableRow,
) -> bool
    requires line { IsPlayedLine R.rules R.rules.start game.now.line.items }
    requires position { game.now.position ≡ position_after R.rules R.rules.start game.now.line.items }
    requires counts { IsCounted R.rules game.now }
    requires room { HasRoom (clocks_replayed game.now) }
    ensures { result ≡ are_legal R.rules read.now game.now start moves.now
        (option_map (λ s. string_bytes s) row.now.end) }
{
    let ruled = end_of(game).is_some();
    let recorded = is_recorded(read, ruled, row);
    may_all_be_given(&read.given, start, moves, ruled, recorded) && is_after_loss(read, game)
}

// The outcome if the id is invalid: the rulings are wrong if there are any, else the moves, else the row.
fn shown_without_id<R: Rules>(moves: &[MoveRow], rulings: &[RulingRow]) -> CheckedRows<R>
    ensures { IsWithoutId moves.now rulings.now result }
{
    if !rulings.is_empty() {
        return CheckedRows::WrongRulings;
    }
    if moves.is_empty() {
        CheckedRows::WrongGame
    } else {
        CheckedRows::WrongMoves
    }
}

// The outcome if the start is invalid: the moves are wrong if there are any, else the rulings, else the row.
fn shown_without_start<R: Rules>(moves: &[MoveRow], rulings: &[RulingRow]) -> CheckedRows<R>
    ensures { IsUnstarted moves.now rulings.now result }
{
    if !moves.is_empty() {
        return CheckedRows::WrongMoves;
    }
    if rulings.is_empty() {
        CheckedRows::WrongGame
    } else {
        CheckedRows::WrongRulings
    }
}

// Checks the rows of a game with this opening and these rulings.
fn view_from<R: Rules>(
    alloc: Global,
    row: &GameTableRow,
    opening: Opening,
    moves: &[MoveRow],
    read: &GameRulings,
) -> Result<CheckedRows<R>, Memory>
    requires id { row.now.id ≡ pos opening.id }
    requires short { opening.id < 2 ^ 32 }
    requires start { row.now.start ≡ pos opening.start }
    requires within { opening.start ≤ 253_402_300_799 }
    requires possible { ArePossible (rulings_given read.now.given.items) }
    requires verdict { read.now.verdict ≡ verdict_of (rulings_given read.now.given.items) }
    ensures sound { IfOk result (λ shown. (rulings : List RulingRow) →
        AreRead opening.id rulings read.now →
        IsSoundIfShown R.rules (terms_given opening.terms) row.now moves.now rulings shown) }
    ensures complete { IfOk result (λ shown. (rulings : List RulingRow) → AreRead opening.id rulings read.now →
        (id : ℕ) (game : Game R.Move) →
        AreRowsOf R.rules (terms_given opening.terms) id row.now moves.now rulings game →
        ShowsGame R.rules (terms_given opening.terms) game shown) }
    ensures wrong { IfOk result (λ shown. (rulings : List RulingRow) → AreRead opening.id rulings read.now →
        IsTrue (is_budget opening.terms.budget) → IsTrue (is_increment opening.terms.increment) →
        IsWrongAsTold R.rules (terms_given opening.terms) row.now moves.now rulings shown) }
{
    let start = opening.start;
    let terms = opening.terms;
    let game = match replay::<R>(alloc, opening, &read.given, moves)? {
        Some(game) => game,
        None => return Ok(CheckedRows::WrongMoves),
    };
    if !are_legal(read, &game, start, moves, row) {
        return Ok(CheckedRows::WrongRulings);
    }
    let stored = match stored_game(row) {
        Some(stored) => stored,
        None => return Ok(CheckedRows::WrongGame),
    };
    let played = viewed(alloc, &stored, terms, game, read)?;
    Ok(stands(&stored, played))
}

/// Checks the row, the moves and the rulings of a game by replay, and builds its view without a ply.
///
/// # Errors
///
/// `Memory` if out of memory.
///
/// # Guarantees
///
/// - `sound`, `complete`: `Game` is returned exactly for the rows of a legal game with these terms.
/// - `wrong`: `WrongRulings` takes precedence if the rows of the rulings are wrong by themselves; then `WrongMoves`,
///   then `WrongRulings` beside the moves, whatever else is wrong with the row.
pub fn view_of<R: Rules>(
    alloc: Global,
    row: &GameTableRow,
    terms: Terms,
    moves: &[MoveRow],
    rulings: &[RulingRow],
) -> Result<CheckedRows<R>, Memory>
    ensures sound { IfOk result (IsSoundIfShown R.rules (terms_given terms) row.now moves.now rulings.now) }
    ensures complete { IfOk result (λ shown. (id : ℕ) (game : Game R.Move) →
        AreRowsOf R.rules (terms_given terms) id row.now moves.now rulings.now game →
        ShowsGame R.rules (terms_given terms) game shown) }
    ensures wrong { IfOk result (λ shown. IsTrue (is_budget terms.budget) → IsTrue (is_increment terms.increment) →
        IsWrongAsTold R.rules (terms_given terms) row.now moves.now rulings.now shown) }
{
    let id = match id(row.id) {
        Some(id) => id,
        None => return Ok(shown_without_id(moves, rulings)),
    };
    let read = match read_rulings(alloc, id, rulings)? {
        Some(read) => read,
        None => return Ok(CheckedRows::WrongRulings),
    };
    let start = match to_moment(row.start) {
        Some(start) => start,
        None => return Ok(shown_without_start(moves, rulings)),
    };
    let opening = Opening { id, start, terms };
    let shown = view_from(alloc, row, opening, moves, &read)?;
    Ok(shown)
}
