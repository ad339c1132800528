//! The report of an order, and its output.

ghost use Rattle.std.specs.Prelude.{◌≡◌, ◌≢◌, ◌⊎◌, ◌++◌, ℕ, [], OnOk, take, string_bytes};
ghost use Rattle.std.specs.Io.KnownBytes.{Appends};
ghost use Rattle.club_orders.specs.Report.{report_status, report_text};
ghost use Rattle.club_orders.specs.internal.Report.{IsFaultTold};

use crate::batched::{BatchResults, write_fault};
use crate::causes::{FileFault, UnreadObject, WrongValue};
use crate::written::write_out;
use club_requests::Outcome;
use std::alloc::AllocError;
use std::io::Write;
use store::{OpenFault, StoreFault};
use store_tables::Version;

/// Exit status: success.
pub const DONE: u8 = 0;

/// Exit status: the order was refused.
pub const REFUSED: u8 = 1;

/// Exit status: the command line cannot be parsed.
pub const BAD_WORDS: u8 = 2;

/// Exit status: a fault of the store, of input or output, of the clock or of memory.
pub const FAULT: u8 = 3;

/// The result of an order.
#[derive(Debug, Drop)]
pub enum Report {
    /// A club was created.
    Ready,
    /// A command has this outcome, or a query was refused.
    Answered(Outcome),
    /// A sweep with a limit ended no game, because more games are overdue: this many.
    Overdue(u64),
    /// A batch was executed, up to the first fault.
    Batched(BatchResults),
    /// The file holds a legal club of this schema.
    Sound(Version),
    /// The file was of this earlier schema and is now of the requested one.
    Upgraded(Version),
    /// The file is of this schema, the requested one or a later one, and is unchanged.
    AlreadyUpgraded(Version),
    /// A backup was written.
    Copied,
    /// The answer to a query was written.
    Shown,
    /// The writer of a query's answer failed.
    OutputFailed,
    /// The file of a backup was not created or not written.
    BackupFailed,
    /// No club was created or opened.
    Unopened(OpenFault),
    /// A call on the open club failed.
    StoreFailed(StoreFault),
    /// The file was not opened: another program uses it.
    InUse,
    /// The file was not opened for another reason.
    NotOpened(FileFault),
    /// The file was not opened because it has this object.
    Unread(UnreadObject),
    /// The command line is refused for this value, before the file is opened.
    ValueRefused(WrongValue),
    /// The system clock is missing or outside 0..=253402300799.
    NoClock,
    /// The record to import cannot be read.
    InputFailed,
    /// The server listens on this port.
    Listening(u16),
    /// The port cannot be bound.
    PortUnavailable,
    /// Out of memory before anything was done.
    NoMemory,
}

impl Report {
    /// The exit status of the program.
    pub fn status(&self) -> u8
        ensures { result ≡ report_status self.now }
    {
        match self {
            Report::Ready => DONE,
            Report::Sound(_) => DONE,
            Report::Upgraded(_) => DONE,
            Report::AlreadyUpgraded(_) => DONE,
            Report::Copied => DONE,
            Report::Answered(Outcome::Accepted(_)) => DONE,
            Report::Answered(Outcome::Repeated(_)) => DONE,
            Report::Answered(Outcome::Refused(_)) => REFUSED,
            Report::Overdue(_) => REFUSED,
            Report::Batched(batched) => batched.status(),
            Report::Shown => DONE,
            Report::OutputFailed => FAULT,
            Report::BackupFailed => FAULT,
            Report::Unopened(_) => FAULT,
            Report::StoreFailed(_) => FAULT,
            Report::InUse => FAULT,
            Report::NotOpened(_) => FAULT,
            Report::Unread(_) => FAULT,
            Report::ValueRefused(_) => REFUSED,
            Report::NoClock => FAULT,
            Report::InputFailed => FAULT,
            Report::Listening(_) => DONE,
            Report::PortUnavailable => FAULT,
            Report::NoMemory => FAULT,
        }
    }
}

// Appends the report: the result, the refusal, or `store` with the number and name of the fault. Of a batch, only its
// fault.
fn write_report(text: &mut String, report: &Report) -> Result<(), AllocError>
    ensures { OnOk result (string_bytes text.new ≡ string_bytes text.old ++ report_text report.now) }
{
    match report {
        Report::Ready => writeln!(text, "ready"),
        Report::Sound(_) => writeln!(text, "sound"),
        Report::Upgraded(_) => writeln!(text, "upgraded"),
        Report::AlreadyUpgraded(_) => writeln!(text, "repeated upgrade"),
        Report::Copied => writeln!(text, "copied"),
        Report::Answered(outcome) => writeln!(text, "{outcome}"),
        Report::Overdue(count) => writeln!(text, "overdue {count}"),
        Report::Batched(batched) => write_fault(text, &batched.fault),
        Report::Shown => Ok(()),
        Report::OutputFailed => writeln!(text, "store 77 Output"),
        Report::BackupFailed => writeln!(text, "store 77 Output"),
        Report::Unopened(fault) => writeln!(text, "store {fault}"),
        Report::StoreFailed(fault) => writeln!(text, "store {fault}"),
        Report::InUse => writeln!(text, "store 73 Store"),
        Report::NotOpened(_) => writeln!(text, "store 73 Store"),
        Report::Unread(_) => writeln!(text, "store 73 Store"),
        Report::ValueRefused(_) => writeln!(text, "refused 65 BadValue"),
        Report::NoClock => writeln!(text, "store 76 Input"),
        Report::InputFailed => writeln!(text, "store 76 Input"),
        Report::Listening(port) => writeln!(text, "listening 127.0.0.1:{port}"),
        Report::PortUnavailable => writeln!(text, "store 76 Input"),
        Report::NoMemory => writeln!(text, "store 75 Memory"),
    }
}

/// Prints an error line instead of one that could not be built or printed; returns `FAULT`.
pub(crate) fn report_output_failure<E: Write>(err: &mut E, line: &str) -> u8
    ensures status { result ≡ 3 }
    ensures told { (n : ℕ) × Appends (E.contents err.old) (E.contents err.new) (take n line.now) }
{
    let _is_told = write_out(err, line.as_bytes());
    FAULT
}

/// Prints a report: a result to standard output, a refusal or fault to standard error. Returns the exit status, or 3 if
/// the line could not be built, or that of a result not written. A refusal that cannot be written keeps its status.
/// The answer to a query is already printed, so nothing follows it; the lines of a batch are printed by `print_batch`.
/// `line` is an empty buffer with preallocated room for a line.
pub fn print<O: Write, E: Write>(line: String, report: &Report, out: &mut O, err: &mut E) -> u8
    requires { string_bytes line ≡ [] }
    ensures status { (result ≡ report_status report.now) ⊎ (result ≡ 3) }
    ensures done { result ≡ 0 → Appends (O.contents out.old) (O.contents out.new) (report_text report.now) }
    ensures refused { result ≡ 1 → (n : ℕ) ×
        Appends (E.contents err.old) (E.contents err.new) (take n (report_text report.now)) }
    ensures told { result ≡ 3 → IsFaultTold report.now (E.contents err.old) (E.contents err.new) }
    ensures silent { report_status report.now ≢ 0 → out.new ≡ out.old }
{
    let mut line = line;
    match write_report(&mut line, report) {
        Ok(()) => {}
        Err(_) => return report_output_failure(err, "store 75 Memory\n"),
    }
    let status = report.status();
    if status == DONE {
        if write_out(out, line.as_bytes()) {
            return DONE;
        }
        return report_output_failure(err, "store 77 Output\n");
    }
    let _is_printed = write_out(err, line.as_bytes());
    status
}
