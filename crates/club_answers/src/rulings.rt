//! The rulings on a game, and the rulings that one word gives on many games.

ghost use Rattle.std.specs.Prelude.{◌≡◌, ℕ, IfOk, Some, is_ok, length, option_map, string_bytes};
ghost use Rattle.sqlite.specs.State.{HasCleanDisk};
ghost use Rattle.sqlite.specs.Held.{state};
ghost use Rattle.store_tables.specs.Reading.{Reads};
ghost use Rattle.club_core.specs.State.{place, rulings_of};
ghost use Rattle.club_rows.specs.Club.{ClubGame, ClubState, IsClub, StoresClub};
ghost use Rattle.club_rows.specs.Rulings.{ArePossible};
ghost use Rattle.club_rows.specs.Tables.{version_of};
ghost use Rattle.club_lists.specs.internal.RulingViews.{rulings_by};
ghost use Rattle.club_answers.specs.AnswerTexts.{IsNoBulk, IsNoGame, IsRulingOrders, IsRulingsJson, IsRulingsText};
ghost use Rattle.club_answers.specs.Games.{game_summaries};
ghost use Rattle.club_answers.specs.internal.Found.{IsFoundAs, IsReadOf};
ghost use Rattle.club_answers.specs.internal.Rulings.{AreRulingsOf, orders_in};

use crate::found::Shown;
use crate::read::{ClubRead, read_club};
use clocks::Moment;
use club_core::GivenRuling;
use club_lists::{bulk_refusal, is_ruled, push_ruling_orders, rulings_json, rulings_text};
use club_reads::{LookupFault, rulings_on, stored_game};
use club_requests::{BulkRuling, Refusal};
use sqlite::{Alter, Connection};
use std::alloc::Global;
use store_tables::Version;

/// The rulings on the game with this id. A club without an arbiter has none, and nothing is read.
pub(crate) fn rulings_in<S: Alter>(
    alloc: Global,
    version: Version,
    conn: &mut Connection<S>,
    game: u32,
) -> Result<Vec<GivenRuling>, LookupFault>
    ensures reads { Reads (is_ok result) (state S.Store conn.old) (state S.Store conn.new) }
    ensures possible { IfOk result (λ found. ArePossible (rulings_by found.items)) }
    ensures rulings { HasCleanDisk (state S.Store conn.new) → IfOk result (λ found. (s : ClubState) (any : ClubGame) →
        IsClub s → version ≡ version_of s → StoresClub s (state S.Store conn.old) → place s.games game ≡ Some any →
        rulings_by found.items ≡ rulings_of any) }
{
    match version {
        Version::V1 => Ok(Vec::new(alloc)),
        Version::V2 => Ok(Vec::new(alloc)),
        Version::V3 => {
            let read = rulings_on(alloc, conn, game)?;
            Ok(read.given)
        }
    }
}

// The rulings on the game with this number, if there is one.
fn rulings_of_game<S: Alter>(
    alloc: Global,
    version: Version,
    conn: &mut Connection<S>,
    game: u64,
) -> Result<Option<Vec<GivenRuling>>, LookupFault>
    ensures reads { Reads (is_ok result) (state S.Store conn.old) (state S.Store conn.new) }
    ensures found { HasCleanDisk (state S.Store conn.new) → IfOk result (λ found. (s : ClubState) → IsClub s →
        version ≡ version_of s → StoresClub s (state S.Store conn.old) →
        AreRulingsOf s game (option_map (λ rulings. rulings_by rulings.items) found)) }
{
    match stored_game(alloc, conn, game)? {
        Some(stored) => {
            let rulings = rulings_in(alloc, version, conn, stored.id)?;
            Ok(Some(rulings))
        }
        None => Ok(None),
    }
}

/// The rulings on a game, one a line.
pub(crate) fn ruling_lines<S: Alter>(
    alloc: Global,
    version: Version,
    conn: &mut Connection<S>,
    game: u64,
) -> Result<Shown, LookupFault>
    ensures reads { Reads (is_ok result) (state S.Store conn.old) (state S.Store conn.new) }
    ensures found { HasCleanDisk (state S.Store conn.new) → IfOk result (λ found. (s : ClubState) → IsClub s →
        version ≡ version_of s → StoresClub s (state S.Store conn.old) →
        IsFoundAs (IsRulingsText s game) (IsNoGame s game) found) }
{
    match rulings_of_game(alloc, version, conn, game)? {
        Some(rulings) => Ok(Shown::Text(rulings_text(alloc, &rulings)?)),
        None => Ok(Shown::Refused(Refusal::UnknownGame)),
    }
}

/// The rulings on a game, as JSON.
pub(crate) fn ruling_objects<S: Alter>(
    alloc: Global,
    version: Version,
    conn: &mut Connection<S>,
    game: u64,
) -> Result<Shown, LookupFault>
    ensures reads { Reads (is_ok result) (state S.Store conn.old) (state S.Store conn.new) }
    ensures found { HasCleanDisk (state S.Store conn.new) → IfOk result (λ found. (s : ClubState) → IsClub s →
        version ≡ version_of s → StoresClub s (state S.Store conn.old) →
        IsFoundAs (IsRulingsJson s game) (IsNoGame s game) found) }
{
    match rulings_of_game(alloc, version, conn, game)? {
        Some(rulings) => Ok(Shown::Text(rulings_json(alloc, &rulings)?)),
        None => Ok(Shown::Refused(Refusal::UnknownGame)),
    }
}

// The number of rulings on the game with this id.
fn count_in<S: Alter>(
    alloc: Global,
    version: Version,
    conn: &mut Connection<S>,
    game: u32,
) -> Result<u32, LookupFault>
    ensures reads { Reads (is_ok result) (state S.Store conn.old) (state S.Store conn.new) }
    ensures count { HasCleanDisk (state S.Store conn.new) → IfOk result (λ count. (s : ClubState) (any : ClubGame) →
        IsClub s → version ≡ version_of s → StoresClub s (state S.Store conn.old) → place s.games game ≡ Some any →
        count ≡ length (rulings_of any)) }
{
    let rulings = rulings_in(alloc, version, conn, game)?;
    Ok(rulings.len() as u32)
}

// The lines for the running games of a club that are named.
fn orders_of<S: Alter>(
    alloc: Global,
    version: Version,
    conn: &mut Connection<S>,
    club: &ClubRead,
    bulk: &BulkRuling,
) -> Result<String, LookupFault>
    ensures reads { Reads (is_ok result) (state S.Store conn.old) (state S.Store conn.new) }
    ensures orders { HasCleanDisk (state S.Store conn.new) → IfOk result (λ text. (s : ClubState) (moment : ℕ) →
        IsClub s → version ≡ version_of s → StoresClub s (state S.Store conn.old) → IsReadOf s moment club.now →
        string_bytes text ≡ orders_in s bulk.now (game_summaries s)) }
{
    let mut text = String::new(alloc);
    for game in club.games.as_slice() {
        if !is_ruled(&club.members, &club.events, bulk, game) {
            continue;
        }
        let count = count_in(alloc, version, conn, game.id)?;
        push_ruling_orders(&mut text, bulk, &club.members, game, count)?;
    }
    Ok(text)
}

/// The orders of a batch that gives rulings on many running games, by the numbers that are free.
pub(crate) fn ruling_orders<S: Alter>(
    alloc: Global,
    version: Version,
    conn: &mut Connection<S>,
    bulk: &BulkRuling,
    moment: Moment,
) -> Result<Shown, LookupFault>
    ensures reads { Reads (is_ok result) (state S.Store conn.old) (state S.Store conn.new) }
    ensures found { HasCleanDisk (state S.Store conn.new) → IfOk result (λ found. (s : ClubState) → IsClub s →
        version ≡ version_of s → StoresClub s (state S.Store conn.old) →
        IsFoundAs (IsRulingOrders s bulk.now) (IsNoBulk s bulk.now) found) }
{
    let club = read_club(alloc, version, conn, moment)?;
    match bulk_refusal(&club.members, &club.events, bulk) {
        Some(refusal) => Ok(Shown::Refused(refusal)),
        None => {
            let text = orders_of(alloc, version, conn, &club, bulk)?;
            Ok(Shown::Text(text))
        }
    }
}
