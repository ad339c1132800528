//! Checks on a path before a file is opened there.
//! Only the creation of a club or of a backup creates a file; nothing else touches what is not a club's file.

ghost use Rattle.std.specs.Prelude.{◌≡◌, ◌≢◌, ◌⊎◌, ◌<◌, IfErr, IfSome};
ghost use Rattle.club_check.specs.declared.fault.OpenFault.TheVariants.{Foreign};
ghost use Rattle.club_orders.specs.declared.report.Report.TheVariants.{Unopened};
ghost use Rattle.club_orders.specs.Report.{IsNotOpened};
ghost use Rattle.club_session.specs.declared.preflight.OpenMode.TheVariants.{Making};

use club_orders::{FileFault, Report};
use std::fs::{
    File, Metadata, OpenOptions, Permissions, canonicalize, metadata, remove_file, set_permissions,
    symlink_metadata,
};
use std::io::{Error, ErrorKind, Read};
use std::os::unix::fs::{MetadataExt, OpenOptionsExt, PermissionsExt};
use store::OpenFault;

/// The mode in which files are opened.
#[derive(Clone, Copy, PartialEq)]
pub(crate) enum OpenMode {
    /// To create a club.
    Making,
    /// For one order.
    Ordering,
    /// For the orders of a batch.
    Batching,
    /// For a serving session.
    Serving,
}

/// The kind of a path.
enum PathKind {
    /// There is no file, or an empty one without a log; its directory exists.
    Nothing,
    /// A file that may be a club's.
    Database,
    /// A SQLite database without a log, in which no table of a club is listed.
    Foreign,
    /// Not a database file, not accessible, or with a log that may be another user's.
    Other(FileFault),
}

// The magic header of a SQLite database (file format, section 1.3.1).
const BEGINNING: [u8; 16] = *b"SQLite format 3\0";

// The minimum and maximum page size in bytes (file format, section 1.3.2).
const LEAST_PAGE: u64 = 512;

const LARGEST_PAGE: u64 = 65_536;

// The length of the shortest log with a frame, in bytes: its header, and the header and the page of a frame (section
// 4.1).
const SHORTEST_LOG: u64 = 32 + 24 + LEAST_PAGE;

// The page size of a file that is not readable as a database, in bytes: SQLite's default.
const USUAL_PAGE: u64 = 4_096;

// The length of the magic header and the page size, in bytes.
const BYTES_TO_PAGE_SIZE: u64 = 18;

// The type byte of a table leaf page (file format, section 1.6). If page 1 is one, it is the whole schema table; its
// header follows the database header of 100 bytes.
const WHOLE_TREE: u8 = 13;

const HEADER_BYTES: usize = 100;

// The name of one of a club's tables.
const OF_A_CLUB: [u8; 10] = *b"challenges";

// The suffixes of SQLite's log files.
const LOGS: [&str; 2] = ["-wal", "-journal"];

// The mode of a new file: only its owner can read and write it, since it will hold members' keys.
const OWNER_ALONE: u32 = 0o600;

// Creates a file with mode 0600; false if one exists or creation fails.
fn make_private(rt: &HostRuntime, file: &str) -> bool {
    OpenOptions::new()
        .write(true)
        .create_new(true)
        .mode(OWNER_ALONE)
        .open(rt, file)
        .is_ok()
}

// Creates a file with mode 0600, or gives an empty one that mode before anything is written to it.
fn begin_private(rt: &HostRuntime, file: &str) -> Result<(), Report>
    ensures { IfErr result IsNotOpened }
{
    if make_private(rt, file) {
        return Ok(());
    }
    match set_permissions(rt, file, Permissions::from_mode(OWNER_ALONE)) {
        Ok(()) => Ok(()),
        // There is none, and none could be made: the opening reports why.
        Err(error) if error.kind() == ErrorKind::NotFound => Ok(()),
        Err(error) if error.kind() == ErrorKind::PermissionDenied => Err(Report::NotOpened(
            FileFault::NotPrivate,
        )),
        Err(error) => Err(Report::NotOpened(fault_of(&error))),
    }
}

// Whether the directory of the file exists.
fn has_folder(rt: &HostRuntime, file: &str) -> bool {
    match file.rsplit_once('/') {
        Some((folder, _)) if !folder.is_empty() => {
            metadata(rt, folder).is_ok_and(|found| found.is_dir())
        }
        _ => true,
    }
}

// Whether the names of the logs beside a new file are short enough.
fn has_room_for_logs(file: &str) -> bool {
    match file.rsplit_once('/') {
        Some((_, name)) => name.len() <= LONGEST_NAME,
        None => file.len() <= LONGEST_NAME,
    }
}

// Whether the file with this suffix exists; true if out of memory.
fn sidecar_exists(rt: &HostRuntime, file: &str, end: &str) -> bool {
    match format!(in rt.alloc(); "{file}{end}") {
        Ok(beside) => metadata(rt, beside.as_str()).is_ok(),
        Err(_) => true,
    }
}

// The bits of a mode by which others than the owner read and write a file.
const SHARED: u32 = 0o066;

// The bits of a mode by which the group, and everybody, writes a file.
const GROUP_WRITES: u32 = 0o020;

const ALL_WRITE: u32 = 0o002;

// The longest name of a new file, in bytes: 255 on Linux, without the 8 of `-journal`.
const LONGEST_NAME: usize = 247;

// The user id of root, who can write the file anyway.
const ROOT: u32 = 0;

// Whether a user and a group may have written a file: as its owner, as root, as its group, or as anybody.
fn may_write(file: &Metadata, log: &Metadata) -> bool {
    log.uid() == file.uid()
        || log.uid() == ROOT
        || (file.mode() & GROUP_WRITES != 0 && log.gid() == file.gid())
        || file.mode() & ALL_WRITE != 0
}

// Whether the log's owner may write the file, and all who may read or write the log may do so with the file.
fn is_log_of(log: &Metadata, file: &Metadata) -> bool {
    may_write(file, log)
        && log.is_file()
        && log.nlink() == 1
        && log.mode() & SHARED & !file.mode() == 0
}

// The path of the write-ahead log of a file. Symbolic links to the file are resolved first.
fn log_path(rt: &HostRuntime, file: &str) -> Option<String> {
    let real = canonicalize(rt, file).ok()?;
    format!(in rt.alloc(); "{}-wal", real.as_str()).ok()
}

/// Whether a file has a write-ahead log.
pub fn has_log(rt: &HostRuntime, file: &str) -> bool {
    log_path(rt, file).is_some_and(|log| symlink_metadata(rt, log.as_str()).is_ok())
}

// Whether the log of a file, if it has one, is trusted: SQLite reads the log as a part of the file.
fn is_log_trusted(rt: &HostRuntime, file: &str, found: &Metadata) -> bool {
    let Some(path) = log_path(rt, file) else {
        return false;
    };
    match symlink_metadata(rt, path.as_str()) {
        Ok(log) => is_log_of(&log, found),
        Err(error) => error.kind() == ErrorKind::NotFound,
    }
}

/// Why a call on a file failed.
pub(crate) fn fault_of(error: &Error) -> FileFault {
    match error.kind() {
        ErrorKind::PermissionDenied => FileFault::Denied,
        ErrorKind::ReadOnlyFilesystem => FileFault::ReadOnly,
        ErrorKind::Unsupported => FileFault::Linked,
        _ => FileFault::Failed,
    }
}

// Whether the file has no log, so that it alone is the database.
fn is_at_rest(rt: &HostRuntime, file: &str) -> bool {
    !sidecar_exists(rt, file, "-wal") && !sidecar_exists(rt, file, "-journal")
}

/// The first bytes of a file, at most so many; empty if it cannot be read.
pub(crate) fn beginning_of(rt: &HostRuntime, file: &str, most: u64) -> Vec<u8> {
    let mut bytes = Vec::new(rt.alloc());
    match File::open(rt, file) {
        Ok(opened) => {
            let _read = opened.take(most).read_to_end(&mut bytes);
            bytes
        }
        Err(_) => bytes,
    }
}

// Why a file does not begin like a database: it cannot be read, or is none.
fn reading_fault(rt: &HostRuntime, file: &str) -> FileFault {
    match File::open(rt, file) {
        Ok(_) => FileFault::NoDatabase,
        Err(error) => fault_of(&error),
    }
}

// The page size in bytes, if the header has one: a big-endian number at offset 16, where 1 means 65536 (file format,
// section 1.3.2).
fn page_size(bytes: &[u8]) -> Option<u64>
    ensures { IfSome result (λ size. 0 < size) }
{
    let size = match bytes.get(16..18) {
        Some([0, 1]) => LARGEST_PAGE,
        Some([high, low]) => u64::from(*high) * 256 + u64::from(*low),
        _ => return None,
    };
    if size < LEAST_PAGE {
        return None;
    }
    Some(size)
}

/// The page size of a file, in bytes; SQLite's default if the file has none.
pub(crate) fn page_bytes(rt: &HostRuntime, file: &str) -> u64
    ensures { 0 < result }
{
    let bytes = beginning_of(rt, file, BYTES_TO_PAGE_SIZE);
    match page_size(bytes.as_slice()) {
        Some(size) => size,
        None => USUAL_PAGE,
    }
}

// The first page, if all of it is there.
fn first_page(bytes: &[u8]) -> Option<&[u8]> {
    let size = page_size(bytes)?;
    bytes.get(..size as usize)
}

// Whether page 1 is the whole schema table and does not name a club's table.
fn lists_no_club(page: &[u8]) -> bool {
    page.get(HEADER_BYTES) == Some(&WHOLE_TREE)
        && !page
            .windows(OF_A_CLUB.len())
            .any(|name| name.eq_ignore_ascii_case(&OF_A_CLUB))
}

// The kind of a file that is not empty. If it has a write-ahead log, the log decides what the database holds: a torn
// write may have left anything in the file.
fn kind_of(rt: &HostRuntime, file: &str) -> PathKind {
    let bytes = beginning_of(rt, file, LARGEST_PAGE);
    if !bytes.starts_with(&BEGINNING) {
        return if sidecar_exists(rt, file, "-wal") {
            PathKind::Database
        } else {
            PathKind::Other(reading_fault(rt, file))
        };
    }
    match first_page(bytes.as_slice()) {
        Some(page) if lists_no_club(page) && is_at_rest(rt, file) => PathKind::Foreign,
        _ => PathKind::Database,
    }
}

// The kind of a path with a regular file.
fn kind_of_file(rt: &HostRuntime, file: &str, found: &Metadata) -> PathKind {
    if found.nlink() != 1 {
        return PathKind::Other(FileFault::Linked);
    }
    if !is_log_trusted(rt, file, found) {
        return PathKind::Other(FileFault::ForeignLog);
    }
    if found.len() != 0 {
        kind_of(rt, file)
    } else if sidecar_exists(rt, file, "-wal") {
        PathKind::Database
    } else {
        PathKind::Nothing
    }
}

fn look(rt: &HostRuntime, file: &str) -> PathKind {
    match metadata(rt, file) {
        Ok(found) if found.is_file() => kind_of_file(rt, file, &found),
        Ok(_) => PathKind::Other(FileFault::NoDatabase),
        Err(error) if error.kind() != ErrorKind::NotFound => PathKind::Other(fault_of(&error)),
        Err(_) if has_folder(rt, file) => PathKind::Nothing,
        Err(_) => PathKind::Other(FileFault::NoFolder),
    }
}

/// Creates the file, with mode 0600, if the command creates a club and there is none; an empty one gets that mode.
/// Foreign tables are no obstacle.
///
/// # Errors
///
/// - `Report::Unopened(OpenFault::Foreign)`: there is no club, and the command does not create one.
/// - `Report::NotOpened`: not a database file, not accessible, an empty one of another user, or with a log that may be
///   another user's.
///
/// Both leave all files as they were.
pub(crate) fn prepare(rt: &HostRuntime, file: &str, purpose: OpenMode) -> Result<(), Report>
    ensures { IfErr result (λ report.
        IsNotOpened report ⊎ ((report ≡ Unopened Foreign) × (purpose ≢ Making))) }
{
    match look(rt, file) {
        PathKind::Database => Ok(()),
        PathKind::Other(fault) => Err(Report::NotOpened(fault)),
        PathKind::Nothing if purpose == OpenMode::Making && !has_room_for_logs(file) => Err(
            Report::NotOpened(FileFault::LongName),
        ),
        PathKind::Nothing if purpose == OpenMode::Making => match begin_private(rt, file) {
            Ok(()) => Ok(()),
            Err(report) => Err(report),
        },
        PathKind::Foreign if purpose == OpenMode::Making => Ok(()),
        PathKind::Nothing | PathKind::Foreign => Err(Report::Unopened(OpenFault::Foreign)),
    }
}

// Whether anything exists at a path, even a dangling symbolic link; true if that is unknown.
fn is_taken(rt: &HostRuntime, path: &str) -> bool {
    match symlink_metadata(rt, path) {
        Ok(_) => true,
        Err(error) => error.kind() != ErrorKind::NotFound,
    }
}

// As `is_taken`, of the file with this suffix.
fn is_sidecar_locked(rt: &HostRuntime, file: &str, end: &str) -> bool {
    match format!(in rt.alloc(); "{file}{end}") {
        Ok(beside) => is_taken(rt, beside.as_str()),
        Err(_) => true,
    }
}

/// Creates a file with mode 0600, if nothing exists at its path or at those of its logs. Returns whether it was
/// created; what exists is not touched.
/// A path with the suffix of a log is rejected: SQLite would take the file for the log of another.
pub(crate) fn make_new(rt: &HostRuntime, file: &str) -> bool {
    for end in LOGS {
        if file.ends_with(end) || is_sidecar_locked(rt, file, end) {
            return false;
        }
    }
    make_private(rt, file)
}

/// Removes the write-ahead log of a file; returns whether it was removed.
pub(crate) fn remove_wal(rt: &HostRuntime, file: &str) -> bool {
    match log_path(rt, file) {
        Some(log) => remove_file(rt, log.as_str()).is_ok(),
        None => false,
    }
}

/// Removes the write-ahead log of a file if it is too short for a frame; returns whether it was removed.
pub(crate) fn remove_empty_log(rt: &HostRuntime, file: &str) -> bool {
    let Some(log) = log_path(rt, file) else {
        return false;
    };
    match symlink_metadata(rt, log.as_str()) {
        Ok(found) if found.is_file() && found.len() < SHORTEST_LOG => {
            remove_file(rt, log.as_str()).is_ok()
        }
        _ => false,
    }
}
