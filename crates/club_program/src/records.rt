//! Input files: the record of a game, the new key of a member, and the lines of a batch.

ghost use Rattle.std.specs.Prelude.{◌≡◌, IfOk, IfSome, take};
ghost use Rattle.club_program.specs.internal.ByteOrderMark.{without_mark};

use cli::{Order, Task, strip_line_end};
use club_batches::BATCH_BYTES;
use club_orders::Report;
use club_requests::Command;
use std::fs::File;
use std::io::{ErrorKind, Read};

// The most bytes read of a record: one more than allowed, so that a longer one is noticed.
const RECORD_BYTES: u64 = 65_537;

// The most bytes read of a batch: one more than allowed.
const ORDERS_BYTES: u64 = BATCH_BYTES as u64 + 1;

/// A text without the byte order mark of UTF-8 that it begins with.
pub(crate) fn without_mark(text: &[u8]) -> &[u8]
    ensures { result.now ≡ without_mark text.now }
{
    match text {
        [a, b, c, rest @ ..] if *a == 0xef && *b == 0xbb && *c == 0xbf => rest,
        _ => text,
    }
}

// Reads at most `most` bytes.
fn read_bytes<I: Read + Drop>(rt: &HostRuntime, input: I, most: u64) -> Result<Vec<u8>, Report>
    ensures { IfOk result (λ read. IfSome (I.remaining input) (λ bytes. read.items ≡ take most bytes)) }
{
    let mut bytes = Vec::new(rt.alloc());
    match input.take(most).read_to_end(&mut bytes) {
        Ok(_) => Ok(bytes),
        Err(error) if error.kind() == ErrorKind::OutOfMemory => Err(Report::NoMemory),
        Err(_) => Err(Report::InputFailed),
    }
}

// Reads at most `most` bytes of a file, or of standard input if the path is `-`.
fn read_path(rt: &HostRuntime, path: &str, most: u64) -> Result<Vec<u8>, Report> {
    if path == "-" {
        return read_bytes(rt, rt.stdin(), most);
    }
    match File::open(rt, path) {
        Ok(file) => read_bytes(rt, file, most),
        Err(_) => Err(Report::InputFailed),
    }
}

/// The text of a record.
///
/// # Errors
///
/// - `NoMemory` if out of memory.
/// - `InputFailed` if it cannot be read.
pub(crate) fn read_record(rt: &HostRuntime, path: &str) -> Result<Vec<u8>, Report> {
    read_path(rt, path, RECORD_BYTES)
}

/// The text of a batch.
///
/// # Errors
///
/// - `NoMemory` if out of memory.
/// - `InputFailed` if it cannot be read.
pub(crate) fn read_batch(rt: &HostRuntime, path: &str) -> Result<Vec<u8>, Report> {
    read_path(rt, path, ORDERS_BYTES)
}

/// The text that an order reads, if it does: the record of an import, or a new key without one line end at its end.
///
/// # Errors
///
/// - `NoMemory` if out of memory.
/// - `InputFailed` if it cannot be read.
pub(crate) fn record_in(rt: &HostRuntime, order: &Order) -> Result<Option<Vec<u8>>, Report> {
    match &order.record {
        Some(path) => {
            let mut text = read_record(rt, path.as_str())?;
            if let Task::Request(Command::NewKey(_)) = &order.task {
                strip_line_end(&mut text);
            }
            Ok(Some(text))
        }
        None => Ok(None),
    }
}
