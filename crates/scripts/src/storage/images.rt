//! The two files of a club as bytes, and the in-memory disks that hold them.

use crate::storage::held::Disks;
use anyhow::{Result, bail};
use sqlite::Files;
use sqlite_disk::{Crash, Disk, Fuse, Memory};
use std::alloc::Global;

/// The bytes of a database file and its log.
#[derive(PartialEq, Drop)]
pub struct Image {
    log: Vec<u8>,
    database: Vec<u8>,
}

/// One of the two files of a club.
#[derive(Clone, Copy)]
pub enum ClubFile {
    Log,
    Database,
}

impl ClubFile {
    /// A crash after this many calls to the file.
    pub fn stop(self, calls: u64) -> Stop {
        match self {
            ClubFile::Log => Stop::Log(calls),
            ClubFile::Database => Stop::Database(calls),
        }
    }

    fn name(self) -> &'static str {
        match self {
            ClubFile::Log => "log",
            ClubFile::Database => "database",
        }
    }

    /// Whether another call to the file succeeds.
    pub fn goes_on(self, disks: &mut Disks) -> bool {
        match self {
            ClubFile::Log => passes(&mut disks.log),
            ClubFile::Database => passes(&mut disks.db),
        }
    }
}

fn passes(disk: &mut Fuse<Memory>) -> bool {
    if !disk.may_be_used() {
        return false;
    }
    disk.len().is_ok()
}

/// The file whose calls are counted, and how many of them succeed.
#[derive(Clone, Copy)]
pub enum Stop {
    Log(u64),
    Database(u64),
    Never,
}

impl Stop {
    fn log_calls(self) -> u64 {
        match self {
            Stop::Log(calls) => calls,
            Stop::Database(_) | Stop::Never => u64::MAX,
        }
    }

    fn database_calls(self) -> u64 {
        match self {
            Stop::Database(calls) => calls,
            Stop::Log(_) | Stop::Never => u64::MAX,
        }
    }
}

/// The maximum number of disk calls of a run.
const MOST_CALLS: u64 = 100_000;

/// A run that can be crashed after any number of calls to a file.
pub trait Stoppable {
    /// Runs it with a crash after `calls` calls to the file; returns whether it ended without the crash, or `None` if
    /// an unexpected state was found.
    /// The state is checked with all that was written, and with only what was synced.
    fn try_stop(&self, alloc: Global, file: ClubFile, calls: u64) -> Result<Option<bool>>;
}

/// Crashes it at each call to the file, until it ends without a crash; returns the number of crashes.
fn stop_at_each<T: Stoppable>(alloc: Global, trial: &T, file: ClubFile) -> Result<u64> {
    let name = file.name();
    for calls in 0..MOST_CALLS {
        match trial.try_stop(alloc, file, calls) {
            Ok(Some(true)) => return Ok(calls),
            Ok(Some(false)) => {}
            Ok(None) => bail!("neither whole nor none after {calls} calls of the {name}"),
            Err(fault) => bail!("{fault} after {calls} calls of the {name}"),
        }
    }
    bail!("not at an end after any number of calls of the {name}")
}

/// Crashes it at each call to either file; returns the number of crashes.
pub fn stop_everywhere<T: Stoppable>(alloc: Global, trial: &T) -> Result<u64> {
    let in_log = stop_at_each(alloc, trial, ClubFile::Log)?;
    let in_database = stop_at_each(alloc, trial, ClubFile::Database)?;
    Ok(in_log.saturating_add(in_database))
}

/// Empty files with this injected crash.
pub fn empty_files(alloc: Global, stop: Stop) -> Disks {
    Files {
        log: Fuse::new(Memory::new(alloc), stop.log_calls()),
        db: Fuse::new(Memory::new(alloc), stop.database_calls()),
    }
}

fn disk(alloc: Global, bytes: &[u8], calls: u64) -> Result<Fuse<Memory>> {
    let mut disk = Memory::new(alloc);
    disk.write_at(0, bytes)?;
    disk.sync()?;
    Ok(Fuse::new(disk, calls))
}

impl Image {
    /// All that was written to the files.
    pub fn written_image(alloc: Global, files: &Disks) -> Result<Image> {
        Ok(Image {
            log: Vec::from_slice(alloc, files.log.inner().bytes())?,
            database: Vec::from_slice(alloc, files.db.inner().bytes())?,
        })
    }

    /// What was synced to the files.
    pub fn synced_image(alloc: Global, files: Disks) -> Result<Image> {
        let mut files = files;
        files.log.crash();
        files.db.crash();
        Image::written_image(alloc, &files)
    }

    /// Files with these bytes and this injected crash.
    pub fn files(&self, alloc: Global, stop: Stop) -> Result<Disks> {
        Ok(Files {
            log: disk(alloc, &self.log, stop.log_calls())?,
            db: disk(alloc, &self.database, stop.database_calls())?,
        })
    }
}
