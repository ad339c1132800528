//! Opens a club's files, waiting for their lock.

ghost use Rattle.std.specs.Prelude.{◌≡◌, ◌≢◌, ◌⊎◌, IfOk, IfErr};
ghost use Rattle.sqlite_wal.specs.Files.{image_at};
ghost use Rattle.sqlite.specs.State.{HasCleanDisk};
ghost use Rattle.sqlite.specs.Held.{IsNew};
ghost use Rattle.sqlite.specs.Start.{FindsIn};
ghost use Rattle.sqlite.specs.Files.{file_state, IsOpened};
ghost use Rattle.club_check.specs.declared.fault.OpenFault.TheVariants.{Foreign};
ghost use Rattle.club_orders.specs.declared.report.Report.TheVariants.{BackupFailed, Unopened};
ghost use Rattle.club_orders.specs.Report.{IsNotOpened};
ghost use Rattle.club_session.specs.declared.preflight.OpenMode.TheVariants.{Making};

use crate::cache_size::cache_pages;
use crate::preflight::{OpenMode, fault_of, make_new, prepare};
use crate::unread::unopened_report;
use club_orders::{FileFault, Report};
use sqlite::{Connection, FileFrom, FileStore, Options};
use sqlite_disk::{Start, Wary};
use sqlite_std_file::{OpenError, open};
use std::hash::{BuildHasher, RandomState};
use std::thread::sleep;
use std::time::Duration;

// How often an order retries while the files are locked, with a pause before each retry: 5 s in all.
const TURNS_OF_AN_ORDER: u8 = 50;

// A serving session does not retry, so that clients do not wait.
const TURNS_OF_A_STRETCH: u8 = 0;

const PAUSE_MILLISECONDS: u64 = 100;

// The checkpoint threshold of an order, in frames of the log: its commit checkpoints.
const FRAMES_OF_AN_ORDER: usize = 1;

// The checkpoint threshold of a batch and of a serving session, in frames of the log: not every commit checkpoints.
const FRAMES_OF_MANY: usize = 1000;

/// The assumption on what the files hold at first, for several attempts to open them.
pub trait RepeatableStart: Start + Sized {
    /// The same assumption again.
    fn again(&self) -> Self;
}

impl RepeatableStart for Wary {
    fn again(&self) -> Wary {
        Wary
    }
}

// The checkpoint threshold, in frames of the log.
fn frames_for(purpose: OpenMode) -> usize {
    match purpose {
        OpenMode::Making => FRAMES_OF_AN_ORDER,
        OpenMode::Ordering => FRAMES_OF_AN_ORDER,
        OpenMode::Batching => FRAMES_OF_MANY,
        OpenMode::Serving => FRAMES_OF_MANY,
    }
}

// How often a locked file is retried.
fn turns_for(purpose: OpenMode) -> u8 {
    match purpose {
        OpenMode::Making => TURNS_OF_AN_ORDER,
        OpenMode::Ordering => TURNS_OF_AN_ORDER,
        OpenMode::Batching => TURNS_OF_AN_ORDER,
        OpenMode::Serving => TURNS_OF_A_STRETCH,
    }
}

// The options of the connection.
fn options(rt: &HostRuntime, file: &str, purpose: OpenMode) -> Result<Options, Report>
    ensures { IfErr result IsNotOpened }
{
    match RandomState::new(rt) {
        Ok(state) => {
            let mut options = Options::new(state.hash_one(&0u8));
            options.checkpoint_frames = frames_for(purpose);
            options.cache_pages = cache_pages(rt, file, purpose);
            Ok(options)
        }
        Err(error) => Err(Report::NotOpened(fault_of(&error))),
    }
}

// Why the kit's `open` failed.
fn opening_fault(error: &OpenError) -> FileFault {
    match error {
        OpenError::HotJournal => FileFault::Journal,
        OpenError::Io(error) => fault_of(error),
        OpenError::Busy | OpenError::OutOfMemory => FileFault::Failed,
    }
}

/// Opens the files, unless another program has locked them.
pub(crate) fn open_once<S: Start>(
    rt: &HostRuntime,
    file: &str,
    purpose: OpenMode,
    start: S,
) -> Result<Connection<FileStore<FileFrom<S>>>, Report>
    ensures opened { IfOk result (λ c. HasCleanDisk (file_state c) → IsOpened c) }
    ensures found { IfOk result (λ c. HasCleanDisk (file_state c) → FindsIn (image_at S.Start) (file_state c)) }
    ensures fresh { IfOk result IsNew }
    ensures unopened { IfErr result IsNotOpened }
{
    let files = match open(rt, file, start) {
        Ok(files) => files,
        Err(OpenError::Busy) => return Err(Report::InUse),
        Err(error) => return Err(Report::NotOpened(opening_fault(&error))),
    };
    let options = match options(rt, file, purpose) {
        Ok(options) => options,
        Err(report) => return Err(report),
    };
    match Connection::open_files_with(rt.alloc(), files, options, false) {
        Ok(mut conn) => {
            conn.set_clock(rt);
            Ok(conn)
        }
        Err((error, left)) => Err(unopened_report(rt, file, &error, left)),
    }
}

// Whether SQLite treats the path as no file (`:memory:` or a URI), as `Connection::open_from` does.
fn names_no_file(file: &str) -> bool {
    file == ":memory:" || file.starts_with("file:")
}

/// Opens the files at a path. An order waits up to 5 s for the lock; a serving session does not wait.
/// Only the creation of a club creates a missing file, with mode 0600. `S` is the assumption on their contents.
///
/// # Errors
///
/// - `Report::InUse`: another program has locked the file.
/// - `Report::Unopened(OpenFault::Foreign)`: there is no club. The creation of a club never reports it, and no file is
///   changed.
/// - `Report::NotOpened`, `Report::Unread`: the path names no database file, it has a feature or an object that is not
///   read, its log may not be trusted, or opening failed.
pub(crate) fn open_with_retries<S: RepeatableStart>(
    rt: &HostRuntime,
    file: &str,
    purpose: OpenMode,
    start: S,
) -> Result<Connection<FileStore<FileFrom<S>>>, Report>
    ensures opened { IfOk result (λ c. HasCleanDisk (file_state c) → IsOpened c) }
    ensures found { IfOk result (λ c. HasCleanDisk (file_state c) → FindsIn (image_at S.Start) (file_state c)) }
    ensures fresh { IfOk result IsNew }
    ensures unopened { IfErr result (λ report. IsNotOpened report ⊎
        ((report ≡ Unopened Foreign) × (purpose ≢ Making))) }
{
    if names_no_file(file) {
        return Err(Report::NotOpened(FileFault::NoDatabase));
    }
    prepare(rt, file, purpose)?;
    for _ in 0..turns_for(purpose) {
        match open_once(rt, file, purpose, start.again()) {
            Ok(conn) => return Ok(conn),
            Err(Report::InUse) => sleep(rt, Duration::from_millis(PAUSE_MILLISECONDS)),
            Err(report) => return Err(report),
        }
    }
    match open_once(rt, file, purpose, start) {
        Ok(conn) => Ok(conn),
        Err(report) => Err(report),
    }
}

/// Creates a file at a path, with mode 0600, and opens it. `S` is the assumption on its contents.
///
/// # Errors
///
/// `Report::BackupFailed` if anything exists at the path, or the file cannot be created or opened. An existing file is
/// not touched.
pub(crate) fn open_new<S: Start>(
    rt: &HostRuntime,
    file: &str,
    start: S,
) -> Result<Connection<FileStore<FileFrom<S>>>, Report>
    ensures opened { IfOk result (λ c. HasCleanDisk (file_state c) → IsOpened c) }
    ensures found { IfOk result (λ c. HasCleanDisk (file_state c) → FindsIn (image_at S.Start) (file_state c)) }
    ensures fresh { IfOk result IsNew }
    ensures unopened { IfErr result (λ report. report ≡ BackupFailed) }
{
    if names_no_file(file) {
        return Err(Report::BackupFailed);
    }
    if !make_new(rt, file) {
        return Err(Report::BackupFailed);
    }
    match open_once(rt, file, OpenMode::Making, start) {
        Ok(conn) => Ok(conn),
        Err(_) => Err(Report::BackupFailed),
    }
}
