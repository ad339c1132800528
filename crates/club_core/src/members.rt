//! Adding a member, and finding a member by key.

ghost use Rattle.std.specs.Prelude.{◌≡◌, ◌≤◌, ◌<◌, ◌&&◌, ◌||◌, length, Option, Some, None, IfNone};
ghost use Rattle.std.specs.Prelude.{string_bytes};
ghost use Rattle.std.specs.List.{list_any};
ghost use Rattle.std.specs.Str.{bytes_eq};
ghost use Rattle.club_requests.specs.Limits.{most_members, is_name, is_member_key};
ghost use Rattle.club_core.specs.Members.{find_id, is_member, had_key, has_name_or_key, present_key};
ghost use Rattle.club_core.specs.Members.{member_refusal, member_step};
ghost use Rattle.club_core.specs.State.{caller_of, has_member_key};
ghost use Rattle.club_requests.specs.Outcome.{by_officer};
ghost use Rattle.club_core.specs.Answer.{outcome_of, answered, who_of};
ghost use Rattle.club_core.specs.internal.Answer.{member_of, members_of};

use crate::ids::id_at;
use club_requests::values::{MOST_MEMBERS, is_member_key, is_name};
use club_requests::{AddMember, Answer, Caller, Outcome, Refusal, Who};

/// A member of the club, with the first secret key and the keys that were given later, the newest last.
#[derive(Debug, Drop)]
pub struct Member {
    pub name: String,
    pub key: String,
    pub later: Vec<String>,
}

impl Member {
    fn is(&self, name: &str, key: &str) -> bool
        ensures { result ≡ is_member name.now key.now (member_of self.now) }
    {
        self.name.as_str() == name && self.key.as_str() == key
    }

    // Whether one of the later keys is this one.
    fn has_later(&self, key: &str) -> bool
        ensures { result ≡ list_any (λ k. bytes_eq k key.now) (member_of self.now).later }
    {
        self.later.iter().any(|later| later.as_str() == key)
    }

    /// Whether the member has or had the key.
    pub(crate) fn had_key(&self, key: &str) -> bool
        ensures { result ≡ had_key key.now (member_of self.now) }
    {
        self.key.as_str() == key || self.has_later(key)
    }

    fn has(&self, name: &str, key: &str) -> bool
        ensures { result ≡ has_name_or_key name.now key.now (member_of self.now) }
    {
        self.name.as_str() == name || self.had_key(key)
    }

    /// The key that the member has now: the newest one.
    pub fn present_key(&self) -> &str
        ensures { result.now ≡ present_key (member_of self.now) }
    {
        match self.later.last() {
            Some(key) => key.as_str(),
            None => self.key.as_str(),
        }
    }
}

/// The id of the member with this name and this first key.
fn find_member(members: &[Member], name: &str, key: &str) -> Option<u32>
    requires { length members.now ≤ most_members }
    ensures { result ≡ find_id (is_member name.now key.now) (members_of members.now) }
{
    id_at(members.iter().position(|m| m.is(name, key)))
}

/// Whether a member has the name, or has or had the key.
fn is_taken(members: &[Member], name: &str, key: &str) -> bool
    ensures { result ≡ list_any (has_name_or_key name.now key.now) (members_of members.now) }
{
    members.iter().any(|m| m.has(name, key))
}

fn has_good_values(name: &str, key: &str) -> bool
    ensures { result ≡ (is_name name.now && is_member_key key.now) }
{
    is_name(name) && is_member_key(key)
}

/// The refusal of a new member, if any.
fn refusal_of_member(members: &[Member], name: &str, key: &str) -> Option<Refusal>
    ensures value { result ≡ member_refusal (members_of members.now) name.now key.now }
    ensures room { IfNone result (length members.now < most_members) }
{
    if is_taken(members, name, key) {
        return Some(Refusal::NameTaken);
    }
    if !has_good_values(name, key) {
        return Some(Refusal::BadValue);
    }
    if members.len() >= MOST_MEMBERS {
        return Some(Refusal::Full);
    }
    None
}

/// Adds a member; only the officer may. `members` is in the order of ids, and the new member gets the next id.
///
/// Adding a member with the same name and first key again is a repeat. A key that any member has or had is taken.
pub fn add_member(members: &[Member], caller: Caller, command: &AddMember) -> Outcome
    requires { length members.now ≤ most_members }
    ensures { outcome_of result ≡ answered (by_officer caller
        (member_step (members_of members.now) (string_bytes command.now.name) (string_bytes command.now.key))) }
{
    if caller != Caller::Officer {
        return Outcome::Refused(Refusal::NotAllowed);
    }
    let name = command.name.as_str();
    let key = command.key.as_str();
    match find_member(members, name, key) {
        Some(id) => return Outcome::Repeated(Answer::Member(id)),
        None => {}
    }
    match refusal_of_member(members, name, key) {
        Some(refusal) => Outcome::Refused(refusal),
        None => Outcome::Accepted(Answer::Member(members.len() as u32 + 1)),
    }
}

/// The caller of a command: the officer, or the member who has the key now. `None` if no member has it.
pub fn identify(members: &[Member], who: &Who) -> Option<Caller>
    requires { length members.now ≤ most_members }
    ensures { result ≡ caller_of (members_of members.now) (who_of who.now) }
{
    match who {
        Who::Officer => Some(Caller::Officer),
        Who::Key(key) => match find_key(members, key.as_str()) {
            Some(id) => Some(Caller::Member(id)),
            None => None,
        },
    }
}

/// The id of the member who has this key now.
fn find_key(members: &[Member], key: &str) -> Option<u32>
    requires { length members.now ≤ most_members }
    ensures { result ≡ find_id (has_member_key key.now) (members_of members.now) }
{
    id_at(members.iter().position(|m| m.present_key() == key))
}
