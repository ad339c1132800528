//! The clock of a game as JSON.

ghost use Rattle.std.specs.Prelude.{◌≡◌, IfOk, string_bytes};
ghost use Rattle.serde_json.specs.View.{view};
ghost use Rattle.squares.specs.declared.sides.Side.TheVariants.{First, Second};
ghost use Rattle.club_core.specs.internal.Answer.{members_of};
ghost use Rattle.club_lists.specs.Clock.{clock_data, clock_text, deadline_within, is_running_side, left_now};
ghost use Rattle.club_lists.specs.Clock.{running_turn};
ghost use Rattle.club_lists.specs.Clock.{while_running};
ghost use Rattle.club_lists.specs.internal.SummaryViews.{summary_of};
ghost use Rattle.club_lists.specs.Values.{number_or_null, text_or_null};

use crate::game_entry::GameEntry;
use crate::lines::turn_name;
use clocks::Moment;
use club_core::Member;
use serde_json::{Value, json};
use squares::Side;
use std::alloc::{AllocError, Global};

/// The last Unix second in which a move is in time, or null if it is beyond `Moment::LAST`.
pub(crate) fn deadline_value(game: &GameEntry) -> Value
    ensures { view result ≡ number_or_null (deadline_within (summary_of game.now)) }
{
    match game.deadline() {
        Some(moment) => Value::from(moment.seconds()),
        None => Value::Null,
    }
}

/// The deadline of a running game; null if it has ended.
pub(crate) fn running_deadline(game: &GameEntry) -> Value
    ensures { view result ≡
        number_or_null (while_running (summary_of game.now) (deadline_within (summary_of game.now))) }
{
    if game.is_over() {
        return Value::Null;
    }
    deadline_value(game)
}

/// The player to move in a running game; null if it has ended.
pub(crate) fn running_turn(
    alloc: Global,
    members: &[Member],
    game: &GameEntry,
) -> Result<Value, AllocError>
    ensures { IfOk result (λ value. view value ≡
        text_or_null (running_turn (members_of members.now) (summary_of game.now))) }
{
    if game.is_over() {
        return Ok(Value::Null);
    }
    Value::try_from_str(alloc, turn_name(members, game))
}

// Whether the game is running and the side is to move.
fn is_running_side(side: Side, game: &GameEntry) -> bool
    ensures { result ≡ is_running_side side (summary_of game.now) }
{
    if game.is_over() {
        return false;
    }
    match (side, game.turn) {
        (Side::First, Side::First) => true,
        (Side::Second, Side::Second) => true,
        _ => false,
    }
}

/// The seconds that First has left at this timestamp.
pub(crate) fn first_now(game: &GameEntry, moment: Moment) -> u64
    ensures { result ≡ left_now moment First (summary_of game.now) }
{
    if is_running_side(Side::First, game) {
        let gone = moment.seconds().saturating_sub(game.since.seconds());
        return game.left_first.saturating_sub(gone);
    }
    game.left_first
}

/// The seconds that Second has left at this timestamp.
pub(crate) fn second_now(game: &GameEntry, moment: Moment) -> u64
    ensures { result ≡ left_now moment Second (summary_of game.now) }
{
    if is_running_side(Side::Second, game) {
        let gone = moment.seconds().saturating_sub(game.since.seconds());
        return game.left_second.saturating_sub(gone);
    }
    game.left_second
}

/// The object of a game's clock at a timestamp.
#[tactic(auto, unfolding(crate::specs::Clock::clock_data))]
pub(crate) fn clock_value(
    alloc: Global,
    members: &[Member],
    game: &GameEntry,
    moment: Moment,
) -> Result<Value, AllocError>
    ensures { IfOk result (λ value. view value ≡
        clock_data (members_of members.now) moment (summary_of game.now)) }
{
    json!(in alloc; {
        "deadline": running_deadline(game),
        "game": game.id,
        "left": [game.left_first, game.left_second],
        "moment": moment.seconds(),
        "now": [first_now(game, moment), second_now(game, moment)],
        "since": game.since.seconds(),
        "turn": running_turn(alloc, members, game)?
    })
}

/// The clock of a game at a timestamp, as a JSON object. All times are in seconds.
///
/// # Errors
///
/// `AllocError` if out of memory.
#[tactic(auto, using(crate::proofs::FloatLemmas::clock_float))]
pub fn clock_text(
    alloc: Global,
    members: &[Member],
    game: &GameEntry,
    moment: Moment,
) -> Result<String, AllocError>
    ensures { IfOk result (λ text. string_bytes text ≡
        clock_text (members_of members.now) moment (summary_of game.now)) }
{
    let value = clock_value(alloc, members, game, moment)?;
    value.to_string(alloc)
}
