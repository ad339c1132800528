//! Checks the rows of members, events and event rules.

ghost use Rattle.std.specs.Prelude.{◌≡◌, ◌+◌, ◌<◌, ◌^◌, ℕ, List, pos, true, false, None, IfSome};
ghost use Rattle.club_core.specs.Members.{Member};
ghost use Rattle.club_core.specs.Events.{Event};
ghost use Rattle.club_core.specs.LegalState.{Each};
ghost use Rattle.club_audit.specs.Audit.{GivesTerms};
ghost use Rattle.club_audit.specs.internal.Audit.{IsOtherMember, IsMemberAt, AreMembers, IsOtherEvent, IsEventAt};
ghost use Rattle.club_audit.specs.Audit.{terms_told};
ghost use Rattle.club_audit.specs.internal.Audit.{AreEvents, AreRules, IsRuleAt};
ghost use Rattle.club_rows.specs.internal.Replay.{terms_given};

use club_requests::values::{MOST_EVENTS, MOST_MEMBERS, is_budget, is_increment};
use club_requests::{is_member_key, is_name};
use club_rows::kinds::kind_of;
use club_rows::numbers::{declares_of, to_u64};
use club_rows::replay::Terms;
use store_tables::{EventRow, EventRuleRow, MemberRow};

/// Whether the id is that of the row at this place (from 0): one more than the place.
pub(crate) fn is_place(id: i64, place: usize) -> bool
    requires { place + 1 < 2 ^ 64 }
    ensures sound { result ≡ true → id ≡ pos (place + 1) }
    ensures complete { id ≡ pos (place + 1) → result ≡ true }
{
    match usize::try_from(id) {
        Ok(id) => id == place + 1,
        Err(_) => false,
    }
}

// Whether the other row is the same member, or has another name and another key.
fn is_other_member(member: &MemberRow, other: &MemberRow) -> bool
    ensures sound { result ≡ true → IsOtherMember member.now other.now }
    ensures complete { IsOtherMember member.now other.now → result ≡ true }
{
    if other.id == member.id {
        return true;
    }
    other.name.as_str() != member.name.as_str() && other.key.as_str() != member.key.as_str()
}

// Whether another member has the same name or key.
fn is_taken(members: &[MemberRow], member: &MemberRow) -> bool
    ensures free { result ≡ false → Each (IsOtherMember member.now) members.now }
    ensures taken { result ≡ true → ¬ Each (IsOtherMember member.now) members.now }
{
    for other in members {
        if !is_other_member(member, other) {
            return true;
        }
    }
    false
}

// Whether the row is that of a legal member at this place (from 0).
fn is_member(members: &[MemberRow], place: usize, member: &MemberRow) -> bool
    requires { place + 1 < 2 ^ 64 }
    ensures sound { result ≡ true → IsMemberAt members.now place member.now }
    ensures complete { IsMemberAt members.now place member.now → result ≡ true }
{
    if !is_place(member.id, place) {
        return false;
    }
    if !is_name(member.name.as_str()) {
        return false;
    }
    if !is_member_key(member.key.as_str()) {
        return false;
    }
    !is_taken(members, member)
}

/// Whether the rows are those of the members of a legal club.
pub fn are_members(members: &[MemberRow]) -> bool
    ensures sound { result ≡ true → (ms : List Member) × AreMembers ms members.now }
    ensures complete { (ms : List Member) → AreMembers ms members.now → result ≡ true }
{
    if members.len() > MOST_MEMBERS {
        return false;
    }
    for (place, member) in members.iter().enumerate() {
        if !is_member(members, place, member) {
            return false;
        }
    }
    true
}

/// The terms of an event. None if its budget or increment is outside the limits.
pub fn terms_of(event: &EventRow, declares: bool) -> Option<Terms>
    ensures some { IfSome result (λ t. GivesTerms event.now t.budget t.increment) }
    ensures told { IfSome result (λ t. terms_given t ≡ terms_told t.budget t.increment declares) }
    ensures none { result ≡ None → (budget increment : ℕ) → ¬ GivesTerms event.now budget increment }
{
    let budget = match to_u64(event.budget) {
        Some(budget) => budget,
        None => return None,
    };
    let increment = match to_u64(event.increment) {
        Some(increment) => increment,
        None => return None,
    };
    if !is_budget(budget) {
        return None;
    }
    if !is_increment(increment) {
        return None;
    }
    Some(Terms {
        budget,
        increment,
        declares,
    })
}

// Whether the other row is the same event, or has another name.
fn is_other_event(event: &EventRow, other: &EventRow) -> bool
    ensures sound { result ≡ true → IsOtherEvent event.now other.now }
    ensures complete { IsOtherEvent event.now other.now → result ≡ true }
{
    if other.id == event.id {
        return true;
    }
    other.name.as_str() != event.name.as_str()
}

// Whether another event has the same name.
fn is_used(events: &[EventRow], event: &EventRow) -> bool
    ensures free { result ≡ false → Each (IsOtherEvent event.now) events.now }
    ensures taken { result ≡ true → ¬ Each (IsOtherEvent event.now) events.now }
{
    for other in events {
        if !is_other_event(event, other) {
            return true;
        }
    }
    false
}

// Whether the row is that of a legal event at this place (from 0).
fn is_event(events: &[EventRow], place: usize, event: &EventRow) -> bool
    requires { place + 1 < 2 ^ 64 }
    ensures sound { result ≡ true → IsEventAt events.now place event.now }
    ensures complete { IsEventAt events.now place event.now → result ≡ true }
{
    if !is_place(event.id, place) {
        return false;
    }
    if !is_name(event.name.as_str()) {
        return false;
    }
    match kind_of(event.game) {
        Some(_) => {}
        None => return false,
    }
    match terms_of(event, false) {
        Some(_) => !is_used(events, event),
        None => false,
    }
}

/// Whether the rows are those of the events of a legal club.
pub fn are_events(events: &[EventRow]) -> bool
    ensures sound { result ≡ true → (es : List Event) × AreEvents es events.now }
    ensures complete { (es : List Event) → AreEvents es events.now → result ≡ true }
{
    if events.len() > MOST_EVENTS {
        return false;
    }
    for (place, event) in events.iter().enumerate() {
        if !is_event(events, place, event) {
            return false;
        }
    }
    true
}

// Whether the row is that of the event's rules at this place (from 0).
fn is_rule(rule: &EventRuleRow, place: usize) -> bool
    requires { place + 1 < 2 ^ 64 }
    ensures sound { result ≡ true → IsRuleAt place rule.now }
    ensures complete { IsRuleAt place rule.now → result ≡ true }
{
    if !is_place(rule.event, place) {
        return false;
    }
    match declares_of(rule.declares) {
        Some(_) => true,
        None => false,
    }
}

/// Whether the rows are those of the rules of `count` events, one for each.
pub fn are_rules(rules: &[EventRuleRow], count: usize) -> bool
    ensures sound { result ≡ true → AreRules rules.now count }
    ensures complete { AreRules rules.now count → result ≡ true }
{
    if rules.len() != count {
        return false;
    }
    for (place, rule) in rules.iter().enumerate() {
        if !is_rule(rule, place) {
            return false;
        }
    }
    true
}
