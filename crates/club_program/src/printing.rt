//! Printing of results and faults.

ghost use Rattle.std.specs.Prelude.{◌≡◌, ◌≤◌, [], IfOk, string_bytes};

use cli::{BadWords, Task};
use club_orders::{
    BAD_WORDS, BatchReport, DONE, Report, TaskReport, print_batch_explained, print_explained,
};
use club_requests::Request;
use std::alloc::AllocError;
use std::io::Write;

// The capacity allocated for the printed line, in bytes.
const LINE_BYTES: usize = 256;

/// An empty line with capacity.
///
/// # Errors
///
/// `AllocError` if out of memory.
pub(crate) fn line_room(rt: &HostRuntime) -> Result<String, AllocError>
    ensures { IfOk result (λ line. string_bytes line ≡ []) }
{
    String::with_capacity(rt.alloc(), LINE_BYTES)
}

/// Reports that memory ran out, without an allocated line.
#[tactic(auto, using(crate::proofs::StatusLemmas::printed_small))]
pub(crate) fn print_without_room(rt: &HostRuntime, task: &Task, explains: bool) -> u8
    ensures { result ≤ 3 }
{
    let line = String::new(rt.alloc());
    let given = TaskReport {
        task,
        report: &Report::NoMemory,
        explains,
    };
    print_explained(line, &given, &mut rt.stdout(), &mut rt.stderr())
}

// The requests of a batch; none of any other task.
fn requests_of(task: &Task) -> &[Request] {
    match task {
        Task::Batch(batch) => batch.requests.as_slice(),
        _ => &[],
    }
}

/// Prints a report into an allocated line, with an explanation if wanted: of a batch, for each refused order.
#[tactic(auto, using(crate::proofs::StatusLemmas::printed_small, crate::proofs::StatusLemmas::batch_printed_small))]
pub(crate) fn print_in(
    rt: &HostRuntime,
    line: String,
    task: &Task,
    report: &Report,
    explains: bool,
) -> u8
    requires { string_bytes line ≡ [] }
    ensures { result ≤ 3 }
{
    match report {
        Report::Batched(batched) => {
            let given = BatchReport {
                requests: requests_of(task),
                batched,
                explains,
            };
            print_batch_explained(rt.alloc(), line, &given, &mut rt.stdout(), &mut rt.stderr())
        }
        _ => {
            let given = TaskReport {
                task,
                report,
                explains,
            };
            print_explained(line, &given, &mut rt.stdout(), &mut rt.stderr())
        }
    }
}

/// Prints a report, with an explanation if wanted; returns the exit status.
pub(crate) fn print_report(rt: &HostRuntime, task: &Task, report: &Report, explains: bool) -> u8
    ensures { result ≤ 3 }
{
    match line_room(rt) {
        Ok(line) => print_in(rt, line, task, report, explains),
        Err(_) => print_without_room(rt, task, explains),
    }
}

/// Prints a text to standard output; returns the exit status.
pub(crate) fn print_text(rt: &HostRuntime, text: &str) -> u8
    ensures { result ≤ 3 }
{
    match rt.stdout().write_all(text.as_bytes()) {
        Ok(()) => DONE,
        Err(_) => print_report(rt, &Task::Verify, &Report::OutputFailed, false),
    }
}

fn print_version(rt: &HostRuntime, line: String) -> u8
    ensures { result ≤ 3 }
{
    match rt.print(line) {
        Ok(()) => DONE,
        Err(_) => print_report(rt, &Task::Verify, &Report::OutputFailed, false),
    }
}

/// Prints why the command line is malformed, or the version if it asks for that; returns the exit status.
pub(crate) fn refuse_words(rt: &HostRuntime, bad: BadWords) -> u8
    ensures { result ≤ 3 }
{
    match bad {
        BadWords::Text(text) => {
            let _ = rt.eprint(text);
            BAD_WORDS
        }
        BadWords::Version(line) => print_version(rt, line),
        BadWords::Memory => print_without_room(rt, &Task::Verify, false),
    }
}
