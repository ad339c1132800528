//! Reads all rows of all tables of a club.

ghost use Rattle.std.specs.Prelude.{◌≡◌, ◌∷◌, [], None, Some, pos, IfOk, IfSome, is_ok};
ghost use Rattle.sqlite.specs.State.{HasCleanDisk};
ghost use Rattle.sqlite.specs.Held.{state};
ghost use Rattle.store_tables.specs.internal.Cells.{meta_cells};
ghost use Rattle.store_tables.specs.Changes.{HaveSame};
ghost use Rattle.store_tables.specs.Over.{HasRowsIn};
ghost use Rattle.store_tables.specs.internal.Over.{HasRows};
ghost use Rattle.store_tables.specs.Reading.{Reads};
ghost use Rattle.store_tables.specs.Names.{tree_of};
ghost use Rattle.store_tables.specs.declared.names.Table.TheVariants.{Meta};
ghost use Rattle.store_tables.specs.Tables.{IsServed, schema_number};
ghost use Rattle.store_tables.specs.declared.names.Version.TheVariants.{V3};
ghost use Rattle.store_sql.specs.internal.Copies.{AreAll, AreNoRulings, ArePeople, ArePlay, AreRulings, AreRulingsIn};

use crate::{TableFault, list};
use sqlite::{Alter, Connection};
use std::alloc::Global;
use store_tables::{
    ChallengeRow, Changes, ClosingRow, EventRow, EventRuleRow, GameTableRow, KeyRow, MemberRow,
    MetaRow, MoveRow, RulingRow, ScoreRow, SeenRow, Version,
};

/// The rows of members, events, event rules and challenges.
#[derive(Drop)]
pub(crate) struct CopiedRows {
    members: Vec<MemberRow>,
    events: Vec<EventRow>,
    event_rules: Vec<EventRuleRow>,
    challenges: Vec<ChallengeRow>,
}

/// The rows of games, moves, positions and scores.
#[derive(Drop)]
pub(crate) struct Play {
    games: Vec<GameTableRow>,
    moves: Vec<MoveRow>,
    seen: Vec<SeenRow>,
    scores: Vec<ScoreRow>,
}

/// The rows of later keys, rulings and closed events.
#[derive(Drop)]
pub(crate) struct ArbiterRows {
    keys: Vec<KeyRow>,
    rulings: Vec<RulingRow>,
    closings: Vec<ClosingRow>,
}

/// The row of `meta` if it is the only one and has the id 1 and the number of the version.
fn only_row(version: Version, rows: Vec<MetaRow>) -> Option<MetaRow>
    ensures { IfSome result (λ first. (rows.items ≡ first ∷ []) × (first.id ≡ pos 1) ×
        (first.schema ≡ pos (schema_number version))) }
{
    let mut rows = rows;
    let first = match rows.pop() {
        Some(first) => first,
        None => return None,
    };
    if !rows.is_empty() {
        return None;
    }
    if first.id != 1 {
        return None;
    }
    if first.schema != version.number() {
        return None;
    }
    Some(first)
}

/// Reads the row of `meta`. `Store` if there is not exactly one row with the id 1 and the number of the version.
fn read_meta<S: Alter>(
    alloc: Global,
    version: Version,
    conn: &mut Connection<S>,
) -> Result<MetaRow, TableFault>
    ensures reads { Reads (is_ok result) (state S.Store conn.old) (state S.Store conn.new) }
    ensures first { IfOk result (λ first. (first.id ≡ pos 1) × (first.schema ≡ pos (schema_number version))) }
    ensures rows { HasCleanDisk (state S.Store conn.new) → IfOk result (λ first. (content : _) → HasRows content
        (state S.Store conn.old) → HaveSame (meta_cells first ∷ []) (content (tree_of Meta))) }
{
    let rows = match list(alloc, conn) {
        Ok(rows) => rows,
        Err(fault) => return Err(fault),
    };
    match only_row(version, rows) {
        Some(first) => Ok(first),
        None => Err(TableFault::Store),
    }
}

fn read_people<S: Alter>(alloc: Global, conn: &mut Connection<S>) -> Result<CopiedRows, TableFault>
    ensures reads { Reads (is_ok result) (state S.Store conn.old) (state S.Store conn.new) }
    ensures rows { HasCleanDisk (state S.Store conn.new) → IfOk result (λ found. (content : _) → HasRows content
        (state S.Store conn.old) → ArePeople found content) }
{
    let members = match list(alloc, conn) {
        Ok(members) => members,
        Err(fault) => return Err(fault),
    };
    let events = match list(alloc, conn) {
        Ok(events) => events,
        Err(fault) => return Err(fault),
    };
    let event_rules = match list(alloc, conn) {
        Ok(event_rules) => event_rules,
        Err(fault) => return Err(fault),
    };
    let challenges = match list(alloc, conn) {
        Ok(challenges) => challenges,
        Err(fault) => return Err(fault),
    };
    Ok(CopiedRows {
        members,
        events,
        event_rules,
        challenges,
    })
}

fn read_play<S: Alter>(alloc: Global, conn: &mut Connection<S>) -> Result<Play, TableFault>
    ensures reads { Reads (is_ok result) (state S.Store conn.old) (state S.Store conn.new) }
    ensures rows { HasCleanDisk (state S.Store conn.new) → IfOk result (λ found. (content : _) → HasRows content
        (state S.Store conn.old) → ArePlay found content) }
{
    let games = match list(alloc, conn) {
        Ok(games) => games,
        Err(fault) => return Err(fault),
    };
    let moves = match list(alloc, conn) {
        Ok(moves) => moves,
        Err(fault) => return Err(fault),
    };
    let seen = match list(alloc, conn) {
        Ok(seen) => seen,
        Err(fault) => return Err(fault),
    };
    let scores = match list(alloc, conn) {
        Ok(scores) => scores,
        Err(fault) => return Err(fault),
    };
    Ok(Play {
        games,
        moves,
        seen,
        scores,
    })
}

/// Reads the rows of the arbiter's tables.
fn read_rulings<S: Alter>(
    alloc: Global,
    conn: &mut Connection<S>,
) -> Result<ArbiterRows, TableFault>
    ensures reads { Reads (is_ok result) (state S.Store conn.old) (state S.Store conn.new) }
    ensures rows { HasCleanDisk (state S.Store conn.new) → IfOk result (λ found. (content : _) → HasRowsIn V3 content
        (state S.Store conn.old) → AreRulings found content) }
{
    let keys = match list(alloc, conn) {
        Ok(keys) => keys,
        Err(fault) => return Err(fault),
    };
    let rulings = match list(alloc, conn) {
        Ok(rulings) => rulings,
        Err(fault) => return Err(fault),
    };
    let closings = match list(alloc, conn) {
        Ok(closings) => closings,
        Err(fault) => return Err(fault),
    };
    Ok(ArbiterRows {
        keys,
        rulings,
        closings,
    })
}

/// Reads the rows of the arbiter's tables of a club of schema 3; none of a club of an earlier schema.
fn read_rulings_in<S: Alter>(
    alloc: Global,
    version: Version,
    conn: &mut Connection<S>,
) -> Result<ArbiterRows, TableFault>
    ensures reads { Reads (is_ok result) (state S.Store conn.old) (state S.Store conn.new) }
    ensures rows { HasCleanDisk (state S.Store conn.new) → IfOk result (λ found. (content : _) →
        HasRowsIn version content (state S.Store conn.old) → AreRulingsIn version found content) }
{
    match version {
        Version::V1 => Ok(no_rulings(alloc)),
        Version::V2 => Ok(no_rulings(alloc)),
        Version::V3 => read_rulings(alloc, conn),
    }
}

fn no_rulings(alloc: Global) -> ArbiterRows
    ensures { AreNoRulings result }
{
    ArbiterRows {
        keys: Vec::new(alloc),
        rulings: Vec::new(alloc),
        closings: Vec::new(alloc),
    }
}

fn join_rows(meta: MetaRow, people: CopiedRows, play: Play, arbiter: ArbiterRows) -> Changes
    ensures { (version : _) → meta.id ≡ pos 1 → meta.schema ≡ pos (schema_number version) → (content : _) →
        HaveSame (meta_cells meta ∷ []) (content (tree_of Meta)) → ArePeople people content → ArePlay play content →
        AreRulingsIn version arbiter content → AreAll version result content }
{
    let CopiedRows {
        members,
        events,
        event_rules,
        challenges,
    } = people;
    let Play {
        games,
        moves,
        seen,
        scores,
    } = play;
    let ArbiterRows {
        keys,
        rulings,
        closings,
    } = arbiter;
    Changes {
        members,
        events,
        event_rules,
        challenges,
        games,
        moves,
        seen,
        scores,
        keys,
        rulings,
        closings,
        last: Some(meta.last),
    }
}

/// Reads all rows of each table of a club of this version, as rows to upsert into another database.
///
/// # Errors
///
/// - `Store` if a call of the database fails, a value has another type than its column, or `meta` has not exactly one
///   row with the id 1 and the number of the version.
/// - `Memory` if out of memory.
pub fn read_rows<S: Alter>(
    alloc: Global,
    version: Version,
    conn: &mut Connection<S>,
) -> Result<Changes, TableFault>
    ensures reads { Reads (is_ok result) (state S.Store conn.old) (state S.Store conn.new) }
    ensures rows { HasCleanDisk (state S.Store conn.new) → IfOk result (λ found. IsServed version → (content : _) →
        HasRowsIn version content (state S.Store conn.old) → AreAll version found content) }
{
    let meta = match read_meta(alloc, version, conn) {
        Ok(meta) => meta,
        Err(fault) => return Err(fault),
    };
    let people = match read_people(alloc, conn) {
        Ok(people) => people,
        Err(fault) => return Err(fault),
    };
    let play = match read_play(alloc, conn) {
        Ok(play) => play,
        Err(fault) => return Err(fault),
    };
    match read_rulings_in(alloc, version, conn) {
        Ok(arbiter) => Ok(join_rows(meta, people, play, arbiter)),
        Err(fault) => Err(fault),
    }
}
