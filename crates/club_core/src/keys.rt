//! Giving a member another key.

ghost use Rattle.std.specs.Prelude.{◌≡◌, ◌≤◌, length, Option, Some, None, is_some, string_bytes};
ghost use Rattle.std.specs.List.{list_any};
ghost use Rattle.std.specs.Option.{option_map};
ghost use Rattle.club_requests.specs.Limits.{most_members};
ghost use Rattle.club_requests.specs.Outcome.{by_officer};
ghost use Rattle.club_core.specs.Members.{had_key};
ghost use Rattle.club_core.specs.Keys.{key_under, is_given, is_key_number, repeat_of_key, key_refusal, key_step};
ghost use Rattle.club_core.specs.Answer.{answered, outcome_of, reply_of};
ghost use Rattle.club_core.specs.internal.Answer.{member_of, members_of};

use crate::members::Member;
use club_requests::values::{MOST_KEYS, is_member_key};
use club_requests::{Answer, Caller, NewKey, Outcome, Refusal};

// The number of the member's later keys.
fn count_later(member: &Member) -> u64
    ensures { result ≡ length (member_of member.now).later }
{
    member.later.len() as u64
}

// Whether the member has a later key under the number, which counts from 1.
fn has_number(member: &Member, number: u64) -> bool
    ensures { result ≡ is_some (key_under (member_of member.now) number) }
{
    1 <= number && number <= count_later(member)
}

// Whether the later key under the number is this one.
fn is_given(member: &Member, number: u64, key: &str) -> bool
    ensures { result ≡ is_given key.now (key_under (member_of member.now) number) }
{
    if !has_number(member, number) {
        return false;
    }
    match member.later.get(number as usize - 1) {
        Some(given) => given.as_str() == key,
        None => false,
    }
}

// Whether the number is that of a later key, or the next one.
fn is_key_number(member: &Member, number: u64) -> bool
    ensures { result ≡ is_key_number (member_of member.now) number }
{
    1 <= number && number - 1 <= count_later(member)
}

// Whether any member has or had the key.
fn is_known(members: &[Member], key: &str) -> bool
    ensures { result ≡ list_any (had_key key.now) (members_of members.now) }
{
    members.iter().any(|member| member.had_key(key))
}

// The refusal of a new key, if any.
fn refusal_of_key(members: &[Member], member: &Member, number: u64, key: &str) -> Option<Refusal>
    ensures { result ≡ key_refusal (members_of members.now) (member_of member.now) number key.now }
{
    if has_number(member, number) {
        return Some(Refusal::Conflict);
    }
    if is_known(members, key) {
        return Some(Refusal::NameTaken);
    }
    if !is_member_key(key) || !is_key_number(member, number) {
        return Some(Refusal::BadValue);
    }
    if member.later.len() >= MOST_KEYS {
        return Some(Refusal::Full);
    }
    None
}

/// Gives a member another key; only the officer may. `members` is in the order of ids.
///
/// The keys that a member was given later are numbered from 1. The key that has the number is a repeat. From then on
/// the member's earlier keys are nobody's, and no member can be given one of them.
pub fn new_key(members: &[Member], caller: Caller, command: &NewKey) -> Outcome
    requires { length members.now ≤ most_members }
    ensures { outcome_of result ≡ answered (by_officer caller (key_step (members_of members.now)
        (string_bytes command.now.name) command.now.number (string_bytes command.now.key))) }
{
    if caller != Caller::Officer {
        return Outcome::Refused(Refusal::NotAllowed);
    }
    let name = command.name.as_str();
    let member = match members.iter().find(|member| member.name.as_str() == name) {
        Some(member) => member,
        None => return Outcome::Refused(Refusal::BadValue),
    };
    let number = command.number;
    let key = command.key.as_str();
    if is_given(member, number, key) {
        return Outcome::Repeated(Answer::KeyGiven { number });
    }
    match refusal_of_key(members, member, number, key) {
        Some(refusal) => Outcome::Refused(refusal),
        None => Outcome::Accepted(Answer::KeyGiven { number }),
    }
}
