//! Clubs in two files, which are opened for each call and closed after it.

ghost use Rattle.std.specs.Prelude.{◌≡◌, false, IfOk};

use crate::storage::rows::{StoredRows, rows_of};
use anyhow::{Error, Result, bail};
use club_requests::{Outcome, Request};
use sqlite::{Connection, FileStore, Files, Options};
use sqlite_disk::Disk;
use std::alloc::Global;
use store::{OpenFault, Run, StoreFault, Upgrade, create, resume, upgrade};
use store_files::{close, close_club, serve_session};
use store_tables::Version;

/// Opens the files; returns them if that fails.
fn connected<D: Disk + Drop>(
    alloc: Global,
    files: Files<D>,
    options: Options,
) -> Result<Connection<FileStore<D>>, Files<D>>
    ensures { IfOk result (λ conn. conn.in_transaction ≡ false) }
{
    if !files.may_be_used() {
        return Err(files);
    }
    match Connection::open_files(alloc, files, options) {
        Ok(conn) => Ok(conn),
        Err((_, left)) => Err(left.into_files()),
    }
}

/// Creates a club with or without an arbiter in the files; returns the result and the files.
pub fn create_in_files<D: Disk + Drop>(
    alloc: Global,
    files: Files<D>,
    options: Options,
    has_arbiter: bool,
) -> (Result<(), OpenFault>, Files<D>) {
    let conn = match connected(alloc, files, options) {
        Ok(conn) => conn,
        Err(files) => return (Err(OpenFault::Store), files),
    };
    match create(alloc, conn, has_arbiter) {
        Ok(club) => (Ok(()), close_club(club).close()),
        Err(unopened) => (Err(unopened.fault), close(unopened.conn).close()),
    }
}

/// Runs a session over the files; returns the result and the files.
pub fn session<D: Disk + Drop>(
    alloc: Global,
    files: Files<D>,
    requests: &[Request],
) -> (Result<Run, OpenFault>, Files<D>) {
    let conn = match connected(alloc, files, Options::new(1)) {
        Ok(conn) => conn,
        Err(files) => return (Err(OpenFault::Store), files),
    };
    match serve_session(alloc, conn, requests) {
        Ok((run, store)) => (Ok(run), store.close()),
        Err(unopened) => (Err(unopened.fault), close(unopened.conn).close()),
    }
}

// The outcomes of a run; an error if the club was still open after a fault.
fn shut_after(run: Run, again: &Run) -> Result<Vec<Outcome>> {
    if run.fault.is_some() && again.fault != Some(StoreFault::Reopen) {
        bail!("a club goes on after a fault");
    }
    Ok(run.outcomes)
}

// No outcomes, if the club was not opened because a disk call failed; an error for any other fault.
fn stopped_before(alloc: Global, fault: OpenFault) -> Result<Vec<Outcome>> {
    match fault {
        OpenFault::Store => Ok(Vec::new(alloc)),
        fault => bail!("a stop is told as {fault}"),
    }
}

/// Executes requests over the files, and again after a fault, when the club must be unavailable. Returns the outcomes
/// and the files.
pub fn run_until_fault<D: Disk + Drop>(
    alloc: Global,
    files: Files<D>,
    requests: &[Request],
    options: Options,
) -> (Result<Vec<Outcome>>, Files<D>) {
    let conn = match connected(alloc, files, options) {
        Ok(conn) => conn,
        Err(files) => return (Ok(Vec::new(alloc)), files),
    };
    let (run, club) = match resume(alloc, conn, requests) {
        Ok(resumed) => resumed,
        Err(unopened) => {
            let outcomes = stopped_before(alloc, unopened.fault);
            return (outcomes, close(unopened.conn).close());
        }
    };
    let mut club = club;
    let again = if run.fault.is_some() { requests } else { &[] };
    let again = club.run(alloc, again);
    (shut_after(run, &again), close_club(club).close())
}

/// Upgrades the club in the files to one with or without an arbiter, with a checkpoint at every commit; returns the
/// result and the files.
pub fn upgrade_in<D: Disk + Drop>(
    alloc: Global,
    files: Files<D>,
    has_arbiter: bool,
) -> (Result<Upgrade, OpenFault>, Files<D>) {
    let options = Options {
        checkpoint_frames: 1,
        ..Options::new(1)
    };
    let conn = match connected(alloc, files, options) {
        Ok(conn) => conn,
        Err(files) => return (Err(OpenFault::Store), files),
    };
    let upgraded = if has_arbiter {
        upgrade(alloc, conn, Version::V3)
    } else {
        upgrade(alloc, conn, Version::V2)
    };
    match upgraded {
        Ok((conn, done)) => (Ok(done), close(conn).close()),
        Err(unopened) => (Err(unopened.fault), close(unopened.conn).close()),
    }
}

/// Executes these statements on the files; returns the result and the files.
pub fn changed_in<D: Disk + Drop>(
    alloc: Global,
    files: Files<D>,
    sql: &str,
) -> (Result<()>, Files<D>) {
    let mut conn = match connected(alloc, files, Options::new(1)) {
        Ok(conn) => conn,
        Err(files) => return (not_opened(), files),
    };
    let done = conn.execute_batch(sql);
    (done.map_err(Error::from), close(conn).close())
}

fn not_opened() -> Result<()> {
    bail!("the files are not opened")
}

/// The rows in the files, and the files.
pub fn rows_in<D: Disk + Drop>(alloc: Global, files: Files<D>) -> (Result<StoredRows>, Files<D>) {
    let mut conn = match connected(alloc, files, Options::new(1)) {
        Ok(conn) => conn,
        Err(files) => return (unread(), files),
    };
    let rows = rows_of(alloc, &mut conn);
    (rows, close(conn).close())
}

fn unread() -> Result<StoredRows> {
    bail!("the files are not opened")
}
