//! Reads members, and identifies the caller of a command.

ghost use Rattle.std.specs.Prelude.{◌≡◌, ◌≤◌, ◌<◌, ℕ, List, map, pos, Some, None, IfOk, is_ok};
ghost use Rattle.std.specs.Prelude.{◌≢◌, ◌+◌, [], ◌∷◌, suc, true, false, ◌<ℤ◌, IsTrue, slice_get};
ghost use Rattle.std.specs.Prelude.{length, string_bytes};
ghost use Rattle.sqlite.specs.declared.types.Value.TheVariants.{Int};
ghost use Rattle.store_tables.specs.internal.Contents.{AreThose};
ghost use Rattle.store_tables.specs.declared.names.Version.TheVariants.{V3};
ghost use Rattle.sqlite.specs.State.{HasCleanDisk};
ghost use Rattle.sqlite.specs.Held.{state};
ghost use Rattle.club_core.specs.internal.Answer.{members_of};
ghost use Rattle.club_core.specs.Members as core_members;
ghost use Rattle.club_core.specs.State as club;
ghost use Rattle.club_core.specs.State.{place};
ghost use Rattle.club_rows.specs.Tables.{number, numbered_from, member_row};
ghost use Rattle.club_rows.specs.Tables.{gathered_from, rows_of_keys, version_of};
ghost use Rattle.store_tables.specs.Changes.{HaveSame};
ghost use Rattle.store_tables.specs.Names.{tree_of};
ghost use Rattle.store_tables.specs.declared.names.Table.TheVariants.{Keys};
ghost use Rattle.store_tables.specs.internal.Cells.{key_cells, member_cells};
ghost use Rattle.store_tables.specs.internal.Over.{HasRows};
ghost use Rattle.store_tables.specs.Reading.{Reads};
ghost use Rattle.club_rows.specs.Club.{ClubState, IsClub, StoresClub, tables};
ghost use Rattle.club_core.specs.Answer.{who_of};
ghost use Rattle.club_core.specs.Members.{find_id};
ghost use Rattle.club_core.specs.State.{caller_found, caller_of, has_member_key};
ghost use Rattle.std.specs.Prelude.{Err, option_map};
ghost use Rattle.club_reads.specs.Keys.{member_by_key};
ghost use Rattle.club_reads.specs.internal.Later.{AreLater, NoneAfter, SomeAfter};
ghost use Rattle.club_reads.specs.internal.Holders.{IsHolder, IsKeyRow, IsLaterAt, IsNoFirstKey};

use crate::fault::LookupFault;
use crate::found::first;
use club_core::Member;
use club_requests::values::{MOST_KEYS, MOST_MEMBERS};
use club_requests::{Caller, Who};
use club_rows::numbers::{id, to_u64};
use sqlite::{Alter, Connection};
use std::alloc::Global;
use store_sql::{LaterKey, MemberKey, find, find_by_first, list};
use store_tables::{KeyRow, MemberRow, Version};

// Whether the row has this member and the number after `count`.
fn is_next(row: &KeyRow, count: usize) -> bool
    ensures { IsTrue result → row.now.number ≡ pos (suc count) }
{
    match to_u64(row.number) {
        Some(number) => number > 0 && number - 1 == count as u64,
        None => false,
    }
}

// Whether the key is one of this member.
fn is_of_member(key: &KeyRow, member: &MemberRow) -> bool
    ensures own { result ≡ true → key.now.member ≡ member.now.id }
    ensures other { result ≡ false → key.now.member ≢ member.now.id }
{
    key.member == member.id
}

// The later keys of the member, in the order of their numbers; `Store` if these are not 1, 2, 3 and so on.
fn later_keys(
    alloc: Global,
    keys: &[KeyRow],
    member: &MemberRow,
) -> Result<Vec<String>, LookupFault>
    ensures { IfOk result (λ later.
        AreLater member.now.id keys.now 0 (map (λ k. string_bytes k) later.items)) }
{
    let mut later = Vec::new(alloc);
    for key in keys {
        if is_of_member(key, member) {
            if !is_next(key, later.len()) {
                return Err(LookupFault::Store);
            }
            later.push(key.key.clone()?)?;
        }
    }
    Ok(later)
}

// Converts the rows of all members, in the order of ids, with the rows of their later keys.
fn members_of(
    alloc: Global,
    rows: &[MemberRow],
    keys: &[KeyRow],
) -> Result<Vec<Member>, LookupFault>
    ensures room { IfOk result (λ members. length members.items ≤ 200) }
    ensures values { IfOk result (λ members. (all : List core_members.Member) →
        map member_cells rows.now ≡ numbered_from member_row 1 all →
        HaveSame (map key_cells keys.now) (gathered_from rows_of_keys 1 all) → members_of members.items ≡ all) }
{
    if rows.len() > MOST_MEMBERS {
        return Err(LookupFault::Store);
    }
    let mut members = Vec::new(alloc);
    for row in rows {
        let later = later_keys(alloc, keys, row)?;
        members.push(Member {
            name: row.name.clone()?,
            key: row.key.clone()?,
            later,
        })?;
    }
    Ok(members)
}

// The rows of later keys; a club of schema 2 has none, and nothing is read.
fn key_rows<S: Alter>(
    alloc: Global,
    version: Version,
    conn: &mut Connection<S>,
) -> Result<Vec<KeyRow>, LookupFault>
    ensures reads { Reads (is_ok result) (state S.Store conn.old) (state S.Store conn.new) }
    ensures rows { HasCleanDisk (state S.Store conn.new) → IfOk result (λ rows. (s : ClubState) → IsClub s →
        version ≡ version_of s → StoresClub s (state S.Store conn.old) →
        HaveSame (map key_cells rows.items) (tables s (tree_of Keys))) }
{
    match version {
        Version::V1 => Ok(Vec::new(alloc)),
        Version::V2 => Ok(Vec::new(alloc)),
        Version::V3 => {
            let rows = list::<KeyRow, S>(alloc, conn)?;
            Ok(rows)
        }
    }
}

/// Returns all members with their later keys, in the order of ids, of a club of this version.
///
/// # Errors
///
/// - `Store` if a call of the database fails, or a row is invalid.
/// - `Memory` if out of memory.
pub fn all_members<S: Alter>(
    alloc: Global,
    version: Version,
    conn: &mut Connection<S>,
) -> Result<Vec<Member>, LookupFault>
    ensures reads { Reads (is_ok result) (state S.Store conn.old) (state S.Store conn.new) }
    ensures room { IfOk result (λ members. length members.items ≤ 200) }
    ensures values { HasCleanDisk (state S.Store conn.new) → IfOk result (λ members. (s : ClubState) → IsClub s →
        version ≡ version_of s → StoresClub s (state S.Store conn.old) → members_of members.items ≡ s.members) }
{
    let rows = list::<MemberRow, S>(alloc, conn)?;
    let keys = key_rows(alloc, version, conn)?;
    let members = members_of(alloc, &rows, &keys)?;
    Ok(members)
}

// The caller with the id of the row.
fn member_in(row: &MemberRow) -> Result<Caller, LookupFault>
    ensures { IfOk result (λ caller. (id : ℕ) (member : core_members.Member) →
        member_cells row.now ≡ member_row id member → caller ≡ Caller.Member id) }
{
    match id(row.id) {
        Some(id) => Ok(Caller::Member(id)),
        None => Err(LookupFault::Store),
    }
}

// The rows of the later keys of the member with this id; none in a club of schema 2.
fn keys_of<S: Alter>(
    alloc: Global,
    version: Version,
    conn: &mut Connection<S>,
    member: &MemberRow,
) -> Result<Vec<KeyRow>, LookupFault>
    ensures reads { Reads (is_ok result) (state S.Store conn.old) (state S.Store conn.new) }
    ensures rows { HasCleanDisk (state S.Store conn.new) → IfOk result (λ rows. (s : ClubState) → IsClub s →
        version ≡ version_of s → StoresClub s (state S.Store conn.old) →
        AreThose (0 ∷ []) (Int member.now.id ∷ []) (tables s (tree_of Keys)) (map key_cells rows.items)) }
{
    match version {
        Version::V1 => Ok(Vec::new(alloc)),
        Version::V2 => Ok(Vec::new(alloc)),
        Version::V3 => {
            let rows = find_by_first::<KeyRow, S>(alloc, conn, &member.id)?;
            Ok(rows)
        }
    }
}

// The row of the later key with this text, if there is one; none in a club of schema 2.
fn later_key<S: Alter>(
    alloc: Global,
    version: Version,
    conn: &mut Connection<S>,
    key: &str,
) -> Result<Option<KeyRow>, LookupFault>
    ensures reads { Reads (is_ok result) (state S.Store conn.old) (state S.Store conn.new) }
    ensures found { HasCleanDisk (state S.Store conn.new) → IfOk result (λ row. (s : ClubState) → IsClub s →
        version ≡ version_of s → StoresClub s (state S.Store conn.old) → IsKeyRow s key.now row) }
{
    match version {
        Version::V1 => Ok(None),
        Version::V2 => Ok(None),
        Version::V3 => {
            let row = first(find(alloc, conn, &LaterKey { key })?);
            Ok(row)
        }
    }
}

// Whether the other key has a greater number.
fn is_after(other: &KeyRow, key: &KeyRow) -> bool
    ensures yes { result ≡ true → key.now.number <ℤ other.now.number }
    ensures no { result ≡ false → ¬ (key.now.number <ℤ other.now.number) }
{
    other.number > key.number
}

// Whether none of these keys has a greater number.
fn is_newest(key: &KeyRow, keys: &[KeyRow]) -> bool
    ensures newest { result ≡ true → NoneAfter key.now.number keys.now }
    ensures older { result ≡ false → SomeAfter key.now.number keys.now }
{
    for other in keys {
        if is_after(other, key) {
            return false;
        }
    }
    true
}

// The row of the member if this key, given later, is the member's newest one.
fn newest_holder<S: Alter>(
    alloc: Global,
    conn: &mut Connection<S>,
    key: &KeyRow,
) -> Result<Option<MemberRow>, LookupFault>
    ensures reads { Reads (is_ok result) (state S.Store conn.old) (state S.Store conn.new) }
    ensures found { HasCleanDisk (state S.Store conn.new) → IfOk result (λ row. (s : ClubState) → IsClub s →
        V3 ≡ version_of s → StoresClub s (state S.Store conn.old) → (text : List ℕ) → IsLaterAt s text key.now →
        IsHolder s text row) }
{
    let keys = find_by_first::<KeyRow, S>(alloc, conn, &key.member)?;
    if !is_newest(key, &keys) {
        return Ok(None);
    }
    match first(find_by_first::<MemberRow, S>(alloc, conn, &key.member)?) {
        Some(row) => Ok(Some(row)),
        None => Err(LookupFault::Store),
    }
}

// The row of the member who has this key now, if it was given later.
fn later_holder<S: Alter>(
    alloc: Global,
    version: Version,
    conn: &mut Connection<S>,
    key: &str,
) -> Result<Option<MemberRow>, LookupFault>
    ensures reads { Reads (is_ok result) (state S.Store conn.old) (state S.Store conn.new) }
    ensures found { HasCleanDisk (state S.Store conn.new) → IfOk result (λ row. (s : ClubState) → IsClub s →
        version ≡ version_of s → StoresClub s (state S.Store conn.old) → IsNoFirstKey s key.now →
        IsHolder s key.now row) }
{
    match later_key(alloc, version, conn, key)? {
        Some(found) => {
            let row = newest_holder(alloc, conn, &found)?;
            Ok(row)
        }
        None => Ok(None),
    }
}

// The member's row, if no other key was given later.
fn first_holder<S: Alter>(
    alloc: Global,
    version: Version,
    conn: &mut Connection<S>,
    row: MemberRow,
) -> Result<Option<MemberRow>, LookupFault>
    ensures reads { Reads (is_ok result) (state S.Store conn.old) (state S.Store conn.new) }
    ensures found { HasCleanDisk (state S.Store conn.new) → IfOk result (λ found. (s : ClubState) → IsClub s →
        version ≡ version_of s → StoresClub s (state S.Store conn.old) → (n : ℕ) (m : core_members.Member) →
        slice_get s.members n ≡ Some m → member_cells row ≡ member_row (1 + n) m → IsHolder s m.key found) }
{
    let keys = keys_of(alloc, version, conn, &row)?;
    if keys.is_empty() {
        return Ok(Some(row));
    }
    Ok(None)
}

// The row of the member who has this key now. A first key counts only where no key was given later, and a later key
// only if it is the newest one.
fn holder<S: Alter>(
    alloc: Global,
    version: Version,
    conn: &mut Connection<S>,
    key: &str,
) -> Result<Option<MemberRow>, LookupFault>
    ensures reads { Reads (is_ok result) (state S.Store conn.old) (state S.Store conn.new) }
    ensures found { HasCleanDisk (state S.Store conn.new) → IfOk result (λ row. (s : ClubState) → IsClub s →
        version ≡ version_of s → StoresClub s (state S.Store conn.old) → IsHolder s key.now row) }
{
    match first(find(alloc, conn, &MemberKey { key })?) {
        Some(row) => {
            let found = first_holder(alloc, version, conn, row)?;
            Ok(found)
        }
        None => {
            let found = later_holder(alloc, version, conn, key)?;
            Ok(found)
        }
    }
}

// The member who has this secret key now, as a caller.
pub(crate) fn member_with<S: Alter>(
    alloc: Global,
    version: Version,
    conn: &mut Connection<S>,
    key: &str,
) -> Result<Option<Caller>, LookupFault>
    ensures reads { Reads (is_ok result) (state S.Store conn.old) (state S.Store conn.new) }
    ensures found { HasCleanDisk (state S.Store conn.new) → IfOk result (λ caller. (s : ClubState) → IsClub s →
        version ≡ version_of s → StoresClub s (state S.Store conn.old) →
        caller ≡ caller_found (find_id (has_member_key key.now) s.members)) }
{
    match holder(alloc, version, conn, key)? {
        Some(row) => Ok(Some(member_in(&row)?)),
        None => Ok(None),
    }
}

/// Identifies the caller of a command to a club of this version: the officer, or the member who has the key now. None
/// if no member has the key.
///
/// # Errors
///
/// - `Store` if a call of the database fails, or a row is invalid.
/// - `Memory` if out of memory.
pub fn identify_caller<S: Alter>(
    alloc: Global,
    version: Version,
    conn: &mut Connection<S>,
    who: &Who,
) -> Result<Option<Caller>, LookupFault>
    ensures reads { Reads (is_ok result) (state S.Store conn.old) (state S.Store conn.new) }
    ensures found { HasCleanDisk (state S.Store conn.new) → IfOk result (λ caller. (s : ClubState) → IsClub s →
        version ≡ version_of s → StoresClub s (state S.Store conn.old) →
        caller ≡ caller_of s.members (who_of who.now)) }
{
    match who {
        Who::Officer => Ok(Some(Caller::Officer)),
        Who::Key(key) => {
            let member = member_with(alloc, version, conn, key.as_str())?;
            Ok(member)
        }
    }
}

/// Returns the name of the member with this id.
///
/// # Errors
///
/// - `Store` if a call of the database fails, a row is invalid, or there is no such member.
/// - `Memory` if out of memory.
pub fn name_of<S: Alter>(
    alloc: Global,
    conn: &mut Connection<S>,
    member: u32,
) -> Result<String, LookupFault>
    ensures reads { Reads (is_ok result) (state S.Store conn.old) (state S.Store conn.new) }
    ensures found { HasCleanDisk (state S.Store conn.new) → IfOk result (λ name. (s : ClubState) →
        HasRows (tables s) (state S.Store conn.old) → (known : core_members.Member) →
        place s.members member ≡ Some known → string_bytes name ≡ known.name) }
{
    let number = i64::from(member);
    match first(find_by_first::<MemberRow, S>(alloc, conn, &number)?) {
        Some(row) => Ok(row.name),
        None => Err(LookupFault::Store),
    }
}

/// Returns the name of the member who has this secret key now, in a club of this version, if there is one.
///
/// # Errors
///
/// - `Store` if a call of the database fails, or a row is invalid.
/// - `Memory` if out of memory.
pub fn member_by_key<S: Alter>(
    alloc: Global,
    version: Version,
    conn: &mut Connection<S>,
    key: &str,
) -> Result<Option<String>, LookupFault>
    ensures reads { Reads (is_ok result) (state S.Store conn.old) (state S.Store conn.new) }
    ensures held { HasCleanDisk (state S.Store conn.new) → IfOk result (λ name. (s : ClubState) → IsClub s →
        version ≡ version_of s → StoresClub s (state S.Store conn.old) →
        option_map string_bytes name ≡ member_by_key s key.now) }
{
    match holder(alloc, version, conn, key)? {
        Some(row) => Ok(Some(row.name)),
        None => Ok(None),
    }
}
