//! The rulings on many running games, as the lines of a batch.

ghost use Rattle.std.specs.Prelude.{◌≡◌, ◌++◌, OnOk, string_bytes};
ghost use Rattle.club_core.specs.internal.Answer.{events_of, members_of};
ghost use Rattle.club_lists.specs.RulingOrders.{bulk_refusal, game_orders, is_named, is_ruled, retired, rule_line};
ghost use Rattle.club_lists.specs.RulingOrders.{side_of};
ghost use Rattle.club_lists.specs.internal.SummaryViews.{summary_of};

use crate::game_entry::GameEntry;
use crate::listing::{has_event, is_member, member_name};
use crate::member_json::{is_of_event, is_player};
use club_core::{Event, Member};
use club_requests::{BulkRuling, Refusal, Ruling};
use squares::{Score, Side};
use std::alloc::AllocError;

// The ruling on a game of a member who retires as this side.
fn retired(is_loss: bool, side: Side) -> Ruling
    ensures { result ≡ retired is_loss side }
{
    match is_loss {
        true => Ruling::Award(Score::lost_by(side)),
        false => Ruling::Void,
    }
}

// The side of a player of the game, by the name.
fn side_of(members: &[Member], name: &str, game: &GameEntry) -> Side
    ensures { result ≡ side_of (members_of members.now) name.now (summary_of game.now) }
{
    if member_name(members, game.first) == name {
        return Side::First;
    }
    Side::Second
}

// Appends a ruling as a line of a batch.
fn push_line(text: &mut String, game: u32, number: u64, ruling: Ruling) -> Result<(), AllocError>
    ensures { OnOk result (string_bytes text.new ≡ string_bytes text.old ++ rule_line game number ruling) }
{
    writeln!(text, "rule {game} {number} {ruling}")
}

/// Appends the lines for a running game with this many rulings.
///
/// # Errors
///
/// `AllocError` if out of memory.
pub fn push_ruling_orders(
    text: &mut String,
    bulk: &BulkRuling,
    members: &[Member],
    game: &GameEntry,
    count: u32,
) -> Result<(), AllocError>
    ensures { OnOk result (string_bytes text.new ≡ string_bytes text.old ++
        game_orders (members_of members.now) bulk.now (summary_of game.now) count) }
{
    let count = u64::from(count);
    match bulk {
        BulkRuling::Retire {
            member,
            event: _,
            is_loss,
        } => {
            let side = side_of(members, member.as_str(), game);
            push_line(text, game.id, count + 1, retired(*is_loss, side))
        }
        BulkRuling::Extend { event: _, seconds } => {
            let seconds = *seconds;
            let side = Side::First;
            push_line(text, game.id, count + 1, Ruling::Grant { side, seconds })?;
            let side = Side::Second;
            push_line(text, game.id, count + 2, Ruling::Grant { side, seconds })
        }
    }
}

// Whether the game is one of the event and of the member that are named.
fn is_named(members: &[Member], events: &[Event], bulk: &BulkRuling, game: &GameEntry) -> bool
    ensures { result ≡ is_named (members_of members.now) (events_of events.now) bulk.now (summary_of game.now) }
{
    match bulk {
        BulkRuling::Retire {
            member,
            event,
            is_loss: _,
        } => {
            if !is_of_event(events, event.as_str(), game) {
                return false;
            }
            is_player(members, member.as_str(), game)
        }
        BulkRuling::Extend { event, seconds: _ } => is_of_event(events, event.as_str(), game),
    }
}

/// Whether the game is running, and one of the event and of the member that are named.
pub fn is_ruled(members: &[Member], events: &[Event], bulk: &BulkRuling, game: &GameEntry) -> bool
    ensures { result ≡ is_ruled (members_of members.now) (events_of events.now) bulk.now (summary_of game.now) }
{
    if game.is_over() {
        return false;
    }
    is_named(members, events, bulk, game)
}

/// The refusal of rulings whose event or member does not exist.
pub fn bulk_refusal(members: &[Member], events: &[Event], bulk: &BulkRuling) -> Option<Refusal>
    ensures { result ≡ bulk_refusal (members_of members.now) (events_of events.now) bulk.now }
{
    match bulk {
        BulkRuling::Retire {
            member,
            event,
            is_loss: _,
        } => {
            if !has_event(events, event.as_str()) {
                return Some(Refusal::UnknownEvent);
            }
            if !is_member(members, member.as_str()) {
                return Some(Refusal::BadValue);
            }
            None
        }
        BulkRuling::Extend { event, seconds: _ } => {
            if !has_event(events, event.as_str()) {
                return Some(Refusal::UnknownEvent);
            }
            None
        }
    }
}
