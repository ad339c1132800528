//! Rows that no valid file has: with wrong types, with ids out of order, and with duplicate keys.

use club_audit::{are_scores, are_seen, wrong_register};
use club_games::Shogi;
use sqlite::{Connection, Row};
use std::alloc::Global;
use std::test::Fail;
use store_tables::{
    MemberRow, MetaRow, RowError, Rows, SeenRow, Table, TableRow, check_ids, parse_all,
};

const MEMBERS: &str = "id INTEGER, name TEXT, key TEXT";

const EVENTS: &str = "id INTEGER, name TEXT, game INTEGER, budget INTEGER, increment INTEGER";

const EVENT_RULES: &str = "event INTEGER, declares INTEGER";

const GAME_COLUMNS: &str =
    "id INTEGER, key TEXT, event INTEGER, first INTEGER, second INTEGER, start INTEGER, since INTEGER, \
    plies INTEGER, left1 INTEGER, left2 INTEGER, offer_side INTEGER, offer_ply INTEGER, end TEXT, result TEXT, \
    position TEXT, track_a INTEGER, track_b INTEGER";

const SEEN: &str = "game INTEGER, position TEXT, count INTEGER, first_ply INTEGER";

const SCORES: &str =
    "event INTEGER, member INTEGER, opponent INTEGER, points INTEGER, wins INTEGER, draws INTEGER, losses INTEGER";

/// Rows of a table with these columns and no constraints.
fn shown(alloc: Global, columns: &str, values: &str) -> Result<Vec<Row>, Fail> {
    let mut conn = Connection::open_in_memory(alloc)?;
    let sql = format!(in alloc; "CREATE TABLE t ({columns}); INSERT INTO t VALUES {values}")?;
    conn.execute_batch(sql.as_str())?;
    Ok(conn.query_all("SELECT * FROM t ORDER BY rowid", &[])?)
}

/// The same rows, parsed.
fn rows<T: TableRow>(alloc: Global, columns: &str, values: &str) -> Result<Vec<T>, Fail> {
    match parse_all(alloc, &shown(alloc, columns, values)?) {
        Ok(rows) => Ok(rows),
        Err(_) => Err(Fail::new("rows of other types")),
    }
}

#[test]
fn rows_are_parsed(rt: HostRuntime) -> Result<(), Fail> {
    let alloc = rt.alloc();
    let three = "(1, 'anna', 'k'), (2, 'bert', 'l'), (2, 'carl', 'm')";
    let members: Vec<MemberRow> = rows(alloc, MEMBERS, three)?;
    assert!(rt; members.len() == 3);
    assert!(rt; members[2].id == 2);
    assert!(rt; members[2].name.as_str() == "carl");
    let other = shown(
        alloc,
        "id INTEGER, name TEXT, key INTEGER",
        "(1, 'anna', 1)",
    )?;
    let mistyped: Result<Vec<MemberRow>, RowError> = parse_all(alloc, &other);
    assert!(rt; mistyped == Err(RowError::WrongType));
    Ok(())
}

/// Whether the ids of these rows are ascending.
fn do_rise(alloc: Global, columns: &str, values: &str) -> Result<bool, Fail> {
    Ok(check_ids(alloc, &shown(alloc, columns, values)?) == Ok(()))
}

#[test]
fn ids_rise(rt: HostRuntime) -> Result<(), Fail> {
    let alloc = rt.alloc();
    assert!(rt; do_rise(alloc, "id INTEGER", "(1), (2), (3)")?);
    assert!(rt; !do_rise(alloc, "id INTEGER", "(1), (2), (2)")?);
    assert!(rt; !do_rise(alloc, "id TEXT", "('anna'), ('bert'), ('carl')")?);
    Ok(())
}

// A draughts game after its first move, and one before it, without their keys.
const MOVED: &str = "1, 1, 2, 1000, 1060, 1, 5, 60, NULL, NULL, NULL, NULL,
'B:W28,31,33,34,35,36,37,38,39,40,41,42,43,44,45,46,47,48,49,50:B1,2,3,4,5,6,7,8,9,10,11,12,13,14,15,16,17,18,19,20',
    0, 0";

const OPENING: &str = "1, 1, 2, 1000, 1000, 0, 60, 60, NULL, NULL, NULL, NULL,
'W:W31,32,33,34,35,36,37,38,39,40,41,42,43,44,45,46,47,48,49,50:B1,2,3,4,5,6,7,8,9,10,11,12,13,14,15,16,17,18,19,20',
    0, 0";

/// The wrong table of a club with this name of the second member, these event rules, and this key of the second game.
fn wrong(alloc: Global, name: &str, rules: &str, key: &str) -> Result<Option<Table>, Fail> {
    let members = format!(in alloc; "(1, 'anna', 'keyanna1'), (2, '{name}', 'keybert2')")?;
    let games = format!(in alloc; "(1, 'g1', {MOVED}), (2, {key}, {OPENING})")?;
    let rows = Rows {
        members: rows(alloc, MEMBERS, members.as_str())?,
        keys: Vec::new(alloc),
        events: rows(alloc, EVENTS, "(1, 'autumn', 0, 60, 5)")?,
        event_rules: rows(alloc, EVENT_RULES, rules)?,
        closings: Vec::new(alloc),
        challenges: Vec::new(alloc),
        games: rows(alloc, GAME_COLUMNS, games.as_str())?,
        meta: MetaRow {
            id: 1,
            schema: 2,
            last: 1060,
        },
    };
    Ok(wrong_register(alloc, &rows)?)
}

#[test]
fn two_of_one_name_or_key_are_seen(rt: HostRuntime) -> Result<(), Fail> {
    let alloc = rt.alloc();
    assert!(rt; wrong(alloc, "bert", "(1, 1)", "NULL")? == None);
    assert!(rt; wrong(alloc, "anna", "(1, 1)", "NULL")? == Some(Table::Members));
    assert!(rt; wrong(alloc, "bert", "(1, 1)", "'g1'")? == Some(Table::Games));
    Ok(())
}

#[test]
fn rules_of_events_are_one_for_each(rt: HostRuntime) -> Result<(), Fail> {
    let alloc = rt.alloc();
    assert!(rt; wrong(alloc, "bert", "(1, 0)", "NULL")? == None);
    assert!(rt; wrong(alloc, "bert", "(1, 2)", "NULL")? == Some(Table::EventRules));
    assert!(rt; wrong(alloc, "bert", "(2, 1)", "NULL")? == Some(Table::EventRules));
    assert!(rt; wrong(alloc, "bert", "(1, 1), (2, 1)", "'g1'")? == Some(Table::EventRules));
    Ok(())
}

// The row of the opening of a shogi game without moves: its repetition count is 1.
const STOOD: &str = "(1, 'lnsgkgsnl/1r5b1/ppppppppp/9/9/9/PPPPPPPPP/1B5R1/LNSGKGSNL b -', 1, 0)";

// Games of anna and bert: bert wins the first on time, the second is running, and the third is drawn by agreement.
const GAMES: &str = "(1, NULL, 1, 1, 2, 1000, 1000, 0, 60, 60, NULL, NULL, 'Time', '0-2', '', 0, 0),
    (2, NULL, 1, 1, 2, 1000, 1000, 0, 60, 60, NULL, NULL, NULL, NULL, '', 0, 0),
    (3, NULL, 1, 1, 2, 1000, 1000, 0, 60, 60, NULL, NULL, 'Agreed', '1-1', '', 0, 0)";

#[test]
fn rows_that_stand_twice_are_seen(rt: HostRuntime) -> Result<(), Fail> {
    let alloc = rt.alloc();
    let once: Vec<SeenRow> = rows(alloc, SEEN, STOOD)?;
    let twice = format!(in alloc; "{STOOD}, {STOOD}")?;
    let twice: Vec<SeenRow> = rows(alloc, SEEN, twice.as_str())?;
    assert!(rt; are_seen::<Shogi>(alloc, 1, &[], &once)?);
    assert!(rt; !are_seen::<Shogi>(alloc, 1, &[], &twice)?);
    let games = rows(alloc, GAME_COLUMNS, GAMES)?;
    let scores = rows(
        alloc,
        SCORES,
        "(1, 1, 2, 1, 0, 1, 1), (1, 2, 1, 3, 1, 1, 0)",
    )?;
    assert!(rt; are_scores(alloc, &games, &scores)?);
    let twice = "(1, 1, 2, 1, 0, 1, 1), (1, 2, 1, 3, 1, 1, 0), (1, 2, 1, 3, 1, 1, 0)";
    let twice = rows(alloc, SCORES, twice)?;
    assert!(rt; !are_scores(alloc, &games, &twice)?);
    Ok(())
}
