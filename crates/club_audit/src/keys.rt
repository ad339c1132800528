//! Checks the rows of later keys.

ghost use Rattle.std.specs.Prelude.{◌≡◌, List, length, true, false, None, IfOk, IfSome};
ghost use Rattle.club_core.specs.LegalState.{HaveUniqueKeys};
ghost use Rattle.club_core.specs.Members.{Member};
ghost use Rattle.club_audit.specs.internal.Audit.{AreMembers};
ghost use Rattle.club_audit.specs.internal.KeyAudit.{AreKeysAfter, AreKeysOf, IsKeyAfter, all_keys, no_key};

use club_requests::is_member_key;
use club_requests::values::MOST_KEYS;
use club_rules::Memory;
use std::alloc::Global;
use std::collections::HashSet;
use store_tables::{KeyRow, MemberRow};

// The member of a row and the number of the key among that member's later keys.
#[derive(Clone, Copy)]
struct KeyPlace {
    member: usize,
    number: usize,
}

// The place of the row, if its key is valid and it may come after a row with the place before. `count` members exist.
fn place_after(before: KeyPlace, row: &KeyRow, count: usize) -> Option<KeyPlace>
    ensures some { IfSome result (λ place. IsKeyAfter count before place row.now) }
    ensures none { result ≡ None → (place : KeyPlace) → ¬ IsKeyAfter count before place row.now }
{
    let member = match usize::try_from(row.member) {
        Ok(member) => member,
        Err(_) => return None,
    };
    let number = match usize::try_from(row.number) {
        Ok(number) => number,
        Err(_) => return None,
    };
    if member > count || number > MOST_KEYS || !is_member_key(row.key.as_str()) {
        return None;
    }
    let is_next = member == before.member && number > 0 && number - 1 == before.number;
    let is_first = member > before.member && number == 1;
    if is_next || is_first {
        Some(KeyPlace { member, number })
    } else {
        None
    }
}

// Whether the keys of each of `count` members are numbered from 1, are not too many and are valid.
fn are_numbered(keys: &[KeyRow], count: usize) -> bool
    ensures sound { result ≡ true → AreKeysAfter count no_key keys.now }
    ensures complete { AreKeysAfter count no_key keys.now → result ≡ true }
{
    let mut before = KeyPlace {
        member: 1,
        number: 0,
    };
    for row in keys {
        match place_after(before, row, count) {
            Some(place) => before = place,
            None => return false,
        }
    }
    true
}

// Whether two keys are the same, of the first and the later ones.
fn share_key(alloc: Global, members: &[MemberRow], keys: &[KeyRow]) -> Result<bool, Memory>
    ensures apart { IfOk result (λ shared. shared ≡ false →
        HaveUniqueKeys (λ k. k) (all_keys members.now keys.now)) }
    ensures shared { IfOk result (λ shared. shared ≡ true →
        ¬ HaveUniqueKeys (λ k. k) (all_keys members.now keys.now)) }
{
    let mut known = HashSet::new(alloc);
    for member in members {
        if !known.insert(member.key.as_str())? {
            return Ok(true);
        }
    }
    for row in keys {
        if !known.insert(row.key.as_str())? {
            return Ok(true);
        }
    }
    Ok(false)
}

/// Whether the rows are those of the later keys of these members, whose rows are right.
///
/// # Errors
///
/// `Memory` if out of memory.
pub fn are_keys(alloc: Global, keys: &[KeyRow], members: &[MemberRow]) -> Result<bool, Memory>
    ensures sound { IfOk result (λ are. are ≡ true → (ms : List Member) → AreMembers ms members.now →
        (keyed : List Member) × AreMembers keyed members.now × AreKeysOf keyed keys.now) }
    ensures complete { IfOk result (λ are. (ms : List Member) → AreMembers ms members.now → AreKeysOf ms keys.now →
        are ≡ true) }
{
    if !are_numbered(keys, members.len()) {
        return Ok(false);
    }
    let shared = share_key(alloc, members, keys)?;
    Ok(!shared)
}
