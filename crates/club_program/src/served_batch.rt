//! Execution of a batch by the running server that holds the file, command by command, so that members are served
//! between.

ghost use Rattle.std.specs.Prelude.{◌≡◌, ◌≢◌, ◌≤◌, false, true};

use crate::printing::print_report;
use cli::{Batch, Task};
use clocks::Moment;
use club_changes::needs_arbiter;
use club_orders::{DONE, FAULT, REFUSED, Report};
use club_requests::{Command, Question};
use control_socket::OrderAnswer;
use std::alloc::AllocError;
use std::io::Write;

/// A batch, and what its commands need to be sent one by one.
#[derive(Drop)]
pub(crate) struct PreparedBatch {
    pub(crate) file: String,
    /// The timestamp of all commands.
    pub(crate) moment: Moment,
    pub(crate) batch: Batch,
    /// A text with the words of each command in the line of its number, from 1.
    pub(crate) lines: Vec<u8>,
    pub(crate) explains: bool,
}

/// How far the server executed a batch.
#[derive(Clone, Copy)]
pub(crate) enum SentBatch {
    /// The output failed, or a query was refused: the program ends with this status.
    Ended(u8),
    /// So many commands were answered, and whether one of them was refused. The next one took effect once or not at
    /// all.
    Answered(usize, bool),
}

// The words of a command line over a file.
fn words_over(rt: &HostRuntime, file: &str, line: &str) -> Result<Vec<String>, AllocError> {
    let mut words = Vec::new(rt.alloc());
    words.push(String::from_str(rt.alloc(), "club")?)?;
    words.push(String::from_str(rt.alloc(), file)?)?;
    for word in line.split_ascii_whitespace() {
        words.push(String::from_str(rt.alloc(), word)?)?;
    }
    Ok(words)
}

// The record that a command imports.
fn record_of(command: &Command) -> &[u8] {
    match command {
        Command::Import(given) => &given.text,
        _ => &[],
    }
}

// Sends the words of a line to the server; `None` if it gives no complete answer.
fn send(rt: &HostRuntime, given: &PreparedBatch, line: &str, record: &[u8]) -> Option<OrderAnswer> {
    let file = given.file.as_str();
    let words = words_over(rt, file, line).ok()?;
    control_socket::order(rt, file, words.as_slice(), given.moment, record)
}

// Prints the answer to the command with this number, as a batch over the file does.
fn print_answer(rt: &HostRuntime, number: u64, answer: &OrderAnswer) -> Result<(), Report> {
    let Ok(line) = format!(in rt.alloc(); "{number} ") else {
        return Err(Report::NoMemory);
    };
    let mut line = line.into_bytes();
    if line.extend_from_slice(&answer.text).is_err() {
        return Err(Report::NoMemory);
    }
    match rt.stdout().write_all(&line) {
        Ok(()) => Ok(()),
        Err(_) => Err(Report::OutputFailed),
    }
}

// Asks the queries of a batch; `None` if the server does not answer them all.
fn ask_all(rt: &HostRuntime, given: &PreparedBatch) -> Option<SentBatch> {
    for question in &given.batch.questions {
        let Question::Games(listing) = question else {
            return None;
        };
        let member = listing.member.as_ref()?;
        let line = format!(in rt.alloc(); "games --member {member}").ok()?;
        let answer = send(rt, given, line.as_str(), &[])?;
        if !answer.is_done {
            let _told = rt.stderr().write_all(&answer.text);
            return Some(SentBatch::Ended(REFUSED));
        }
    }
    Some(SentBatch::Answered(0, false))
}

// Sends the commands whose words are in the lines, up to the first without an answer.
fn send_lines(rt: &HostRuntime, given: &PreparedBatch, lines: &str) -> SentBatch {
    let mut number: u64 = 0;
    let mut count: usize = 0;
    let mut has_refusal = false;
    for line in lines.lines() {
        number = number.saturating_add(1);
        if given.batch.numbers.get(count) != Some(&number) {
            continue;
        }
        let Some(request) = given.batch.requests.get(count) else {
            break;
        };
        let Some(answer) = send(rt, given, line, record_of(&request.command)) else {
            break;
        };
        if let Err(report) = print_answer(rt, number, &answer) {
            return SentBatch::Ended(print_report(rt, &Task::Verify, &report, false));
        }
        has_refusal = has_refusal || !answer.is_done;
        count = count.saturating_add(1);
    }
    SentBatch::Answered(count, has_refusal)
}

// Whether a command of a batch needs a file of schema 3. A file of schema 2 refuses such a batch as a whole, so its
// commands are not sent one by one.
fn is_for_arbiter(batch: &Batch) -> bool {
    batch
        .requests
        .iter()
        .any(|request| needs_arbiter(&request.command))
}

/// Executes the commands of a batch on the running server and prints their outcomes, each as an order of its own at the
/// timestamp of the batch. `Answered(0, false)` if no server holds the file, or if a command is an arbiter's.
pub(crate) fn send_batch(rt: &HostRuntime, given: &PreparedBatch) -> SentBatch {
    if is_for_arbiter(&given.batch) {
        return SentBatch::Answered(0, false);
    }
    let Ok(lines) = std::str::from_utf8(&given.lines) else {
        return SentBatch::Answered(0, false);
    };
    match ask_all(rt, given) {
        Some(SentBatch::Answered(_, _)) => send_lines(rt, given, lines),
        Some(ended) => ended,
        None => SentBatch::Answered(0, false),
    }
}

/// The exit status of a batch whose first commands the server answered, and whose others ended with a status.
pub(crate) fn status_with(has_refusal: bool, rest: u8) -> u8
    requires { rest ≤ 3 }
    ensures status { result ≤ 3 }
    ensures refused { rest ≡ 0 → has_refusal ≡ true → result ≡ 1 }
    ensures done { rest ≡ 0 → has_refusal ≡ false → result ≡ 0 }
    ensures failed { rest ≢ 0 → result ≡ rest }
{
    if rest == DONE && has_refusal {
        REFUSED
    } else {
        rest
    }
}
