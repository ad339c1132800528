//! The filter of a list of games.

ghost use Rattle.std.specs.Prelude.{◌≡◌, string_bytes};
ghost use Rattle.std.specs.List.{list_any};
ghost use Rattle.std.specs.Option.{option_map};
ghost use Rattle.club_core.specs.internal.Answer.{members_of, events_of};
ghost use Rattle.club_core.specs.Events.{has_event_name};
ghost use Rattle.club_core.specs.Seats.{has_member_name};
ghost use Rattle.club_core.specs.State.{place};
ghost use Rattle.club_lists.specs.Listing.{member_name, event_name, is_asked, has_asked, is_which, is_listed};
ghost use Rattle.club_lists.specs.Listing.{listing_refusal};
ghost use Rattle.club_lists.specs.internal.SummaryViews.{summary_of};

use crate::game_entry::GameEntry;
use clocks::Moment;
use club_core::{Event, Member};
use club_requests::{GameFilter, Listing, Refusal};

/// The name of the member with an id; empty if there is none.
pub fn member_name(members: &[Member], id: u32) -> &str
    ensures { result.now ≡ member_name (place (members_of members.now) id) }
{
    if id == 0 {
        return "";
    }
    match members.get(id as usize - 1) {
        Some(member) => member.name.as_str(),
        None => "",
    }
}

/// The name of the event with an id; empty if there is none.
pub fn event_name(events: &[Event], id: u32) -> &str
    ensures { result.now ≡ event_name (place (events_of events.now) id) }
{
    if id == 0 {
        return "";
    }
    match events.get(id as usize - 1) {
        Some(event) => event.name.as_str(),
        None => "",
    }
}

// Whether a name passes the filter, which may be absent.
fn is_asked(asked: &Option<String>, name: &str) -> bool
    ensures { result ≡ is_asked (option_map (λ n. string_bytes n) asked.now) name.now }
{
    match asked {
        None => true,
        Some(asked) => name == asked.as_str(),
    }
}

// Whether the game has the state that the filter requires.
fn is_which(which: GameFilter, game: &GameEntry, moment: Moment) -> bool
    ensures { result ≡ is_which which moment (summary_of game.now) }
{
    match which {
        GameFilter::All => true,
        GameFilter::Running => !game.is_over(),
        GameFilter::Overdue => game.is_late(moment),
    }
}

// Whether a player of the game passes the filter by name.
fn has_player(asked: &Option<String>, members: &[Member], game: &GameEntry) -> bool
    ensures { result ≡ has_asked (members_of members.now) (option_map (λ n. string_bytes n) asked.now)
        (summary_of game.now) }
{
    if is_asked(asked, member_name(members, game.first)) {
        return true;
    }
    is_asked(asked, member_name(members, game.second))
}

/// Whether the game passes the filter at this timestamp.
pub fn is_listed(
    listing: &Listing,
    members: &[Member],
    events: &[Event],
    game: &GameEntry,
    moment: Moment,
) -> bool
    ensures { result ≡ is_listed (members_of members.now) (events_of events.now) listing.now moment
        (summary_of game.now) }
{
    if !is_asked(&listing.event, event_name(events, game.event)) {
        return false;
    }
    if !has_player(&listing.member, members, game) {
        return false;
    }
    is_which(listing.which, game, moment)
}

/// Whether an event has this name.
pub fn has_event(events: &[Event], name: &str) -> bool
    ensures { result ≡ list_any (has_event_name name.now) (events_of events.now) }
{
    events.iter().any(|event| event.name.as_str() == name)
}

/// Whether a member has this name.
pub(crate) fn is_member(members: &[Member], name: &str) -> bool
    ensures { result ≡ list_any (has_member_name name.now) (members_of members.now) }
{
    members.iter().any(|member| member.name.as_str() == name)
}

/// The refusal of a list whose event or member does not exist.
pub fn listing_refusal(listing: &Listing, members: &[Member], events: &[Event]) -> Option<Refusal>
    ensures { result ≡ listing_refusal (members_of members.now) (events_of events.now) listing.now }
{
    if let Some(name) = &listing.event {
        if !has_event(events, name.as_str()) {
            return Some(Refusal::UnknownEvent);
        }
    }
    if let Some(name) = &listing.member {
        if !is_member(members, name.as_str()) {
            return Some(Refusal::BadValue);
        }
    }
    None
}
