//! Clubs in an in-memory database.

use crate::storage::held::Held;
use crate::storage::rows::rows_of;
use anyhow::{Error, Result, bail};
use clocks::Moment;
use club_requests::{Question, Request};
use sqlite::{Connection, MemStore};
use std::alloc::Global;
use store::{Club, OpenFault, Run, Unopened, Upgrade, adopt, create, upgrade};
use store_sql::commit_changes;
use store_tables::Version;

/// Opens the club in a database, or returns the reason.
pub fn open_club(
    alloc: Global,
    conn: Connection<MemStore>,
) -> Result<Club<MemStore>, Unopened<MemStore>> {
    if conn.is_autocommit() {
        adopt(alloc, conn)
    } else {
        Err(Unopened {
            fault: OpenFault::Store,
            conn,
        })
    }
}

/// Creates a club with or without an arbiter in a database, or returns the reason.
pub fn create_club(
    alloc: Global,
    conn: Connection<MemStore>,
    has_arbiter: bool,
) -> Result<Club<MemStore>, Unopened<MemStore>> {
    if conn.is_autocommit() {
        create(alloc, conn, has_arbiter)
    } else {
        Err(Unopened {
            fault: OpenFault::Store,
            conn,
        })
    }
}

/// Upgrades a database to a club with or without an arbiter; returns the result and the database.
pub fn upgrade_club(
    alloc: Global,
    conn: Connection<MemStore>,
    has_arbiter: bool,
) -> (Result<Upgrade, OpenFault>, Connection<MemStore>) {
    if !conn.is_autocommit() {
        return (Err(OpenFault::Store), conn);
    }
    let upgraded = if has_arbiter {
        upgrade(alloc, conn, Version::V3)
    } else {
        upgrade(alloc, conn, Version::V2)
    };
    match upgraded {
        Ok((conn, done)) => (Ok(done), conn),
        Err(unopened) => (Err(unopened.fault), unopened.conn),
    }
}

/// Creates a club with or without an arbiter in an empty database.
pub fn new_club(alloc: Global, has_arbiter: bool) -> Result<Club<MemStore>> {
    match create_club(alloc, Connection::open_in_memory(alloc)?, has_arbiter) {
        Ok(club) => Ok(club),
        Err(unopened) => Err(Error::from(unopened.fault)),
    }
}

/// The state and `word` if a club was opened, else the fault.
pub fn outcome_text(
    alloc: Global,
    opened: Result<Club<MemStore>, Unopened<MemStore>>,
    word: &str,
) -> Result<(Held, String)> {
    match opened {
        Ok(club) => Ok((Held::Club(club), String::from_str(alloc, word)?)),
        Err(unopened) => {
            let text = format!(in alloc; "{}", unopened.fault)?;
            Ok((Held::Database(unopened.conn), text))
        }
    }
}

/// Opens the club in a database.
pub fn adopt_in_memory(alloc: Global, conn: Connection<MemStore>) -> Result<Club<MemStore>> {
    match open_club(alloc, conn) {
        Ok(club) => Ok(club),
        Err(unopened) => Err(Error::from(unopened.fault)),
    }
}

/// Opens the club in a database; fails if that changes anything.
pub fn reopen_club(alloc: Global, conn: Connection<MemStore>) -> Result<Club<MemStore>> {
    let mut conn = conn;
    let before = rows_of(alloc, &mut conn)?;
    let mut conn = adopt_in_memory(alloc, conn)?.into_connection();
    if rows_of(alloc, &mut conn)? != before {
        bail!("another club was taken than was given up");
    }
    adopt_in_memory(alloc, conn)
}

/// Executes requests by one call; returns the club and the result.
pub fn run(alloc: Global, club: Club<MemStore>, requests: &[Request]) -> (Club<MemStore>, Run) {
    let mut club = club;
    let run = club.run(alloc, requests);
    (club, run)
}

/// Copies the rows of a database into a new club. They are written twice, so that the second time each replaces its
/// own.
pub fn copy_of(alloc: Global, conn: &mut Connection<MemStore>) -> Result<Connection<MemStore>> {
    let stored = rows_of(alloc, conn)?;
    let mut copy = new_club(alloc, stored.version == Version::V3)?.into_connection();
    commit_changes(&mut copy, stored.version, &stored.rows)?;
    commit_changes(&mut copy, stored.version, &stored.rows)?;
    Ok(copy)
}

/// Executes these statements.
pub fn execute_sql(conn: Connection<MemStore>, sql: &str) -> Result<Connection<MemStore>> {
    let mut conn = conn;
    conn.execute_batch(sql)?;
    Ok(conn)
}

// Joins the lines of a text with `;`.
fn joined(alloc: Global, text: &[u8]) -> Result<String> {
    let mut told = String::new(alloc);
    for line in str::from_utf8(text)?.lines() {
        if !told.is_empty() {
            told.push_str(";")?;
        }
        told.push_str(line)?;
    }
    Ok(told)
}

// The query for the cross table of an event, and its timestamp.
fn table_asked(alloc: Global, event: &str) -> Result<(Question, Moment)> {
    let name = String::from_str(alloc, event)?;
    match Moment::new(0) {
        Some(moment) => Ok((Question::CrossTable(name), moment)),
        None => bail!("there is no such moment"),
    }
}

/// The club, and the cross table of an event; `none` if there is no such event.
pub fn table(alloc: Global, club: Club<MemStore>, event: &str) -> (Club<MemStore>, Result<String>) {
    let (question, moment) = match table_asked(alloc, event) {
        Ok(asked) => asked,
        Err(error) => return (club, Err(error)),
    };
    let mut club = club;
    let mut text = Vec::new(alloc);
    let told = match club.ask(alloc, &question, moment, &mut text) {
        Ok(None) => joined(alloc, &text),
        Ok(Some(_)) => none(alloc),
        Err(fault) => Err(Error::from(fault)),
    };
    (club, told)
}

fn none(alloc: Global) -> Result<String> {
    Ok(String::from_str(alloc, "none")?)
}
