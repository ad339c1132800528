//! Checks all rows of one game of an event, and names the first wrong table.

ghost use Rattle.std.specs.Prelude.{◌≡◌, None, Some, pos, true, IfOk, IsTrue, int_le};
ghost use Rattle.club_core.specs.Game.{left_of};
ghost use Rattle.club_core.specs.View.{clocks_in};
ghost use Rattle.club_requests.specs.Limits.{is_budget, is_increment};
ghost use Rattle.club_audit.specs.internal.Audit.{IsWithin, IsWithinGiven, are_given_by};
ghost use Rattle.club_audit.specs.internal.FirstWrong.{IsFirstWrong};
ghost use Rattle.club_audit.specs.GameAudit.{IsRightIn};
ghost use Rattle.club_audit.specs.internal.GameAudit.{AreOfEvent, IsRightInEvent};
ghost use Rattle.club_rows.specs.internal.Replay.{terms_given};

use crate::people::terms_of;
use crate::seen_audit::are_seen;
use clocks::Moment;
use club_core::GameView;
use club_games::{Draughts, Shogi};
use club_requests::OutsideEnd;
use club_rows::kinds::kind_of;
use club_rows::numbers::{id, to_i64};
use club_rows::replay::Terms;
use club_rows::view::{CheckedRows, view_of};
use club_rules::{GameKind, Memory, Rules};
use squares::Side;
use std::alloc::Global;
use store_tables::{EventRow, GameTableRow, MoveRow, RulingRow, SeenRow, Table};

/// All rows of one game: its own, those of its moves in the order of plies, those of its rulings in the order of
/// numbers, and those of its positions in any order.
#[derive(Clone, Copy)]
pub struct GameRows<'a> {
    pub game: &'a GameTableRow,
    pub moves: &'a [MoveRow],
    pub rulings: &'a [RulingRow],
    pub seen: &'a [SeenRow],
}

// The remaining seconds of the side to move.
fn left_to_mover<R: Rules>(view: &GameView<R>) -> u64
    ensures { result ≡ left_of (R.rules.turn view.now.position) (clocks_in view.now.row) }
{
    match R::turn(&view.position) {
        Side::First => view.row.left_first,
        Side::Second => view.row.left_second,
    }
}

// Whether the ruling is not after `last`.
fn is_given_by(row: &RulingRow, last: Moment) -> bool
    ensures { result ≡ int_le row.now.moment (pos last) }
{
    row.moment <= to_i64(last.seconds())
}

// Whether no ruling is after `last`.
fn are_given_by(rulings: &[RulingRow], last: Moment) -> bool
    ensures { result ≡ are_given_by last rulings.now }
{
    rulings.iter().all(|ruling| is_given_by(ruling, last))
}

// Whether no timestamp of the game is after `last`, and a loss on time had happened by then.
fn is_within<R: Rules>(view: &GameView<R>, rulings: &[RulingRow], last: Moment) -> bool
    ensures sound { result ≡ true → IsWithin R.rules view.now rulings.now last }
    ensures complete { IsWithin R.rules view.now rulings.now last → result ≡ true }
{
    if view.row.since > last {
        return false;
    }
    if !are_given_by(rulings, last) {
        return false;
    }
    let elapsed = last.seconds() - view.row.since.seconds();
    match view.row.outside {
        Some(end) => match end {
            OutsideEnd::Time => left_to_mover(view) < elapsed,
            _ => true,
        },
        None => true,
    }
}

// The same if `last` is given, else true.
fn is_within_given<R: Rules>(
    view: &GameView<R>,
    rulings: &[RulingRow],
    last: Option<Moment>,
) -> bool
    ensures sound { result ≡ true → IsWithinGiven R.rules view.now rulings.now last }
    ensures complete { IsWithinGiven R.rules view.now rulings.now last → result ≡ true }
{
    match last {
        Some(last) => {
            let _within = last.seconds();
            is_within(view, rulings, last)
        }
        None => true,
    }
}

// The first wrong table by all rows of a game with these rules and terms.
fn wrong_of_all<R: Rules>(
    alloc: Global,
    own: &GameRows<'_>,
    terms: Terms,
    last: Option<Moment>,
) -> Result<Option<Table>, Memory>
    requires budget { IsTrue (is_budget terms.budget) }
    requires increment { IsTrue (is_increment terms.increment) }
    ensures { IfOk result (IsFirstWrong (IsRightIn R.rules (terms_given terms) last
        own.now.game.now own.now.moves.now own.now.rulings.now own.now.seen.now)) }
{
    let played = match view_of::<R>(alloc, own.game, terms, own.moves, own.rulings)? {
        CheckedRows::Game(played) => played,
        CheckedRows::WrongMoves => return Ok(Some(Table::Moves)),
        CheckedRows::WrongRulings => return Ok(Some(Table::Rulings)),
        CheckedRows::WrongGame => return Ok(Some(Table::Games)),
    };
    if !is_within_given(&played.view, own.rulings, Moment::new(Moment::LAST)) {
        return Ok(Some(Table::Games));
    }
    let number = match id(own.game.id) {
        Some(number) => number,
        None => return Ok(Some(Table::Games)),
    };
    if !are_seen::<R>(alloc, number, own.moves, own.seen)? {
        return Ok(Some(Table::Seen));
    }
    if !is_within_given(&played.view, own.rulings, last) {
        return Ok(Some(Table::Meta));
    }
    Ok(None)
}

// The first wrong table by all rows of a game of this event. `last` is the latest timestamp allowed, if given.
pub(crate) fn wrong_in_event(
    alloc: Global,
    event: &EventRow,
    declares: bool,
    own: &GameRows<'_>,
    last: Option<Moment>,
) -> Result<Option<Table>, Memory>
    ensures { IfOk result (IsFirstWrong (IsRightInEvent event.now declares last
        own.now.game.now own.now.moves.now own.now.rulings.now own.now.seen.now)) }
{
    let terms = match terms_of(event, declares) {
        Some(terms) => terms,
        None => return Ok(Some(Table::Events)),
    };
    match kind_of(event.game) {
        Some(GameKind::Draughts) => wrong_of_all::<Draughts>(alloc, own, terms, last),
        Some(GameKind::Shogi) => wrong_of_all::<Shogi>(alloc, own, terms, last),
        None => Ok(Some(Table::Events)),
    }
}

/// Returns the first wrong table by all rows of one game of this event; None if they are those of a legal game. `last`
/// is the latest timestamp allowed.
///
/// # Errors
///
/// `Memory` if out of memory.
///
/// # Guarantees
///
/// - `sound`, `complete`: None is returned exactly for the rows of a legal game.
/// - `first`: all tables before the returned one are right.
pub fn audit_game(
    alloc: Global,
    event: &EventRow,
    declares: bool,
    own: &GameRows<'_>,
    last: Moment,
) -> Result<Option<Table>, Memory>
    ensures sound { IfOk result (λ wrong. wrong ≡ None →
        AreOfEvent event.now declares last own.now.game.now own.now.moves.now own.now.rulings.now own.now.seen.now) }
    ensures complete { IfOk result (λ wrong.
        AreOfEvent event.now declares last own.now.game.now own.now.moves.now own.now.rulings.now
        own.now.seen.now → wrong ≡ None) }
    ensures first { IfOk result (IsFirstWrong (IsRightInEvent event.now declares
        (Some last) own.now.game.now own.now.moves.now own.now.rulings.now own.now.seen.now)) }
{
    let _within = last.seconds();
    let wrong = wrong_in_event(alloc, event, declares, own, Some(last))?;
    Ok(wrong)
}
