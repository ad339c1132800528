//! The access log: timestamp, method, path in the route table, status and member for a request; never a key.
//!
//! An order of the control socket is logged as timestamp, `officer`, command and exit status.

ghost use Rattle.std.specs.Prelude.{◌≡◌, ◌⊎◌, ◌++◌, ℕ, List, IfOk, option_map, string_bytes};
ghost use Rattle.std.specs.Char.{is_ascii_graphic};
ghost use Rattle.std.specs.List.{list_all};
ghost use Rattle.server.specs.internal.LogLine.{IsLineOf, IsLeftOut, IsLogged, IsNoted};
ghost use Rattle.server.specs.internal.LogLine.{start_line, first_word, second_word, may_hold_key, word_written};
ghost use Rattle.server.specs.internal.LogLine.{method_written, rest_written, unknown_path, path_written};
ghost use Rattle.server.specs.internal.LogLine.{words_written, caller_written, or_mark, shown, fault_written};
ghost use Rattle.server.specs.internal.LogLine.{reason_written};
ghost use Rattle.server.specs.internal.LogLine.{line_written, ended_line_written, fault_line_written};
ghost use Rattle.server.specs.internal.LogLine.{call_line_written, wrong_keys_written, left_out_written};
ghost use Rattle.server.specs.internal.LogLine.{order_line_written, order_status, word_of};

use crate::serve::Exchange;
use clocks::Moment;
use control_socket::{Operation, OrderFault, write_reply};
use http_bodies::status_of;
use http_desk::routes::{front, path_of, pattern_of, rest_after, text_of};
use http_desk::{DeskFault, Routes};
use http_head::skip_line_breaks;
use std::alloc::{AllocError, Global};
use std::io::Write;

/// Why a connection ends without a complete request.
#[derive(Clone, Copy, Debug, PartialEq, Eq)]
pub(crate) enum EndReason {
    /// The client closed its side.
    Closed,
    /// The time for a request is over.
    Timeout,
    /// The server is full, and others wait.
    Crowded,
    /// Reading failed, or out of memory.
    Failed,
}

/// An event to log.
#[derive(Clone, Copy)]
pub(crate) enum LogEntry<'n> {
    /// A request: the exchange, or the fault.
    Call(&'n Result<Exchange, DeskFault>),
    /// The end of a connection without a complete request, after these bytes.
    Ended(&'n [u8], EndReason),
    /// The beginning of the time in which replies to wrong keys wait.
    WrongKeys,
    /// An order, and whether it was done (`true`) or refused.
    Order(&'n Operation, Result<bool, OrderFault>),
}

// Whether all bytes are printable ASCII without blanks.
fn is_graphic(bytes: &[u8]) -> bool
    ensures { result ≡ list_all is_ascii_graphic bytes.now }
{
    bytes.iter().all(|byte| byte.is_ascii_graphic())
}

// The text, if it is printable ASCII without blanks.
fn shown(bytes: &[u8]) -> Option<&str>
    ensures { option_map (λ t. t.now) result ≡ shown bytes.now }
{
    if is_graphic(bytes) {
        text_of(bytes)
    } else {
        None
    }
}

// The start line of a request, without the line breaks around it.
fn start_line(bytes: &[u8]) -> &[u8]
    ensures { result.now ≡ start_line bytes.now }
{
    front(front(skip_line_breaks(bytes), b'\n'), b'\r')
}

// The second word of a line.
fn second_word(line: &[u8]) -> &[u8]
    ensures { result.now ≡ second_word line.now }
{
    front(rest_after(line, b' '), b' ')
}

// Whether the bytes hold 8 letters and digits in a row, as a key does.
fn may_hold_key(bytes: &[u8]) -> bool
    ensures { result ≡ may_hold_key bytes.now }
{
    let mut run: usize = 0;
    for byte in bytes {
        if run > 7 {
            return true;
        }
        if byte.is_ascii_alphanumeric() {
            run += 1;
        } else {
            run = 0;
        }
    }
    run > 7
}

// A word, cut at a limit; `-` if it may hold a key, or is not printable.
fn word_shown(word: &[u8], limit: usize) -> &str
    ensures { result.now ≡ word_written limit word.now }
{
    if may_hold_key(word) {
        return "-";
    }
    let length = word.len().min(limit);
    shown(&word[..length]).unwrap_or("-")
}

// The method, at most 16 bytes; `-` if there is none.
fn method_shown(method: &[u8]) -> &str
    ensures { result.now ≡ method_written method.now }
{
    if method.is_empty() {
        return "-";
    }
    word_shown(method, 16)
}

// `-` for the segments of a path after the first, if there are any.
fn rest_shown(inner: &[u8]) -> &'static str
    ensures { result.now ≡ rest_written inner.now }
{
    if front(inner, b'/').len() < inner.len() {
        "/-"
    } else {
        ""
    }
}

// The first segment of a path that no route matches, and `-` for the rest.
fn unknown_path(alloc: Global, path: &[u8]) -> Result<String, AllocError>
    ensures { IfOk result (λ text. string_bytes text ≡ unknown_path path.now) }
{
    let inner = rest_after(path, b'/');
    let segment = word_shown(front(inner, b'/'), 197);
    let rest = rest_shown(inner);
    format!(in alloc; "/{segment}{rest}")
}

// The path of a request target: that of its route in the route table, or the first segment of an unknown one.
fn path_shown(alloc: Global, routes: &Routes, target: &[u8]) -> Result<String, AllocError>
    ensures { IfOk result (λ text. string_bytes text ≡ path_written target.now) }
{
    match routes.match_route(target) {
        Some(asked) => String::from_str(alloc, pattern_of(asked.route.topic)),
        None => match path_of(target) {
            Some(path) => unknown_path(alloc, path),
            None => String::from_str(alloc, "-"),
        },
    }
}

// The method and the path in the start line of a request, with a blank after each.
fn words_shown(alloc: Global, routes: &Routes, bytes: &[u8]) -> Result<String, AllocError>
    ensures { IfOk result (λ text. string_bytes text ≡ words_written bytes.now) }
{
    let line = start_line(bytes);
    let path = path_shown(alloc, routes, second_word(line))?;
    let method = method_shown(front(line, b' '));
    format!(in alloc; "{method} {path} ")
}

// The member's name, or `-`.
fn caller_shown(caller: Option<&str>) -> &str
    ensures { result.now ≡ caller_written (option_map (λ name. name.now) caller.entry) }
{
    match caller {
        Some(name) => shown(name.as_bytes()).unwrap_or("-"),
        None => "-",
    }
}

// The line of a request with a reply.
fn served_line(
    alloc: Global,
    seconds: u64,
    words: &str,
    status: Option<u32>,
    caller: &str,
) -> Result<String, AllocError>
    ensures { IfOk result (λ line. string_bytes line ≡ line_written seconds words.now status caller.now) }
{
    match status {
        Some(status) => format!(in alloc; "{seconds} {words}{status} {caller}\n"),
        None => format!(in alloc; "{seconds} {words}- {caller}\n"),
    }
}

// The word for a request without a reply.
fn fault_shown(fault: DeskFault) -> &'static str
    ensures { result.now ≡ fault_written fault }
{
    match fault {
        DeskFault::Memory => "memory",
        DeskFault::Read => "unreadable",
        DeskFault::Write => "unwritable",
    }
}

// The word for a connection without a complete request.
fn reason_shown(reason: EndReason) -> &'static str
    ensures { result.now ≡ reason_written reason }
{
    match reason {
        EndReason::Closed => "closed",
        EndReason::Timeout => "timeout",
        EndReason::Crowded => "crowded",
        EndReason::Failed => "failed",
    }
}

// The line of a request without a reply.
fn unserved_line(alloc: Global, seconds: u64, fault: DeskFault) -> Result<String, AllocError>
    ensures { IfOk result (λ line. string_bytes line ≡ fault_line_written seconds fault) }
{
    format!(in alloc; "{seconds} - - - {}\n", fault_shown(fault))
}

// The line of a connection without a complete request.
fn ended_line(
    alloc: Global,
    routes: &Routes,
    moment: Moment,
    bytes: &[u8],
    reason: EndReason,
) -> Result<String, AllocError>
    ensures { IfOk result (λ line. string_bytes line ≡ ended_line_written moment bytes.now reason) }
{
    let words = words_shown(alloc, routes, bytes)?;
    let (seconds, reason) = (moment.seconds(), reason_shown(reason));
    format!(in alloc; "{seconds} {words}- {reason}\n")
}

fn call_line(
    alloc: Global,
    routes: &Routes,
    moment: Moment,
    done: &Result<Exchange, DeskFault>,
) -> Result<String, AllocError>
    ensures { IfOk result (λ line. string_bytes line ≡ call_line_written moment done.now) }
{
    let seconds = moment.seconds();
    match done {
        Ok(done) => {
            let words = words_shown(alloc, routes, &done.bytes)?;
            let caller = caller_shown(done.caller.as_deref());
            served_line(
                alloc,
                seconds,
                words.as_str(),
                status_of(&done.reply),
                caller,
            )
        }
        Err(fault) => unserved_line(alloc, seconds, *fault),
    }
}

// The line at the beginning of the time in which replies to wrong keys wait.
fn wrong_keys_line(alloc: Global, moment: Moment) -> Result<String, AllocError>
    ensures { IfOk result (λ line. string_bytes line ≡ wrong_keys_written moment) }
{
    let seconds = moment.seconds();
    format!(in alloc; "{seconds} - - many wrong keys\n")
}

// The line that reports the number of dropped lines; empty if it is zero.
fn left_out_line(alloc: Global, seconds: u64, count: u64) -> Result<String, AllocError>
    ensures { IfOk result (λ line. string_bytes line ≡ left_out_written seconds count) }
{
    if count > 0 {
        format!(in alloc; "{seconds} - - {count} left out\n")
    } else {
        Ok(String::new(alloc))
    }
}

// The subcommand of an operation, or `-`; `question` for all queries.
fn word_of(errand: &Operation) -> &'static str
    ensures { result.now ≡ word_of errand.now }
{
    match errand {
        Operation::Command(command) => match command.name() {
            Some(name) => name,
            None => "-",
        },
        Operation::Question(_) => "question",
    }
}

// The exit status of the command, or `-` if its answer could not be sent.
fn order_status(done: Result<bool, OrderFault>) -> &'static str
    ensures { result.now ≡ order_status done }
{
    match done {
        Ok(true) => "0",
        Ok(false) => "1",
        Err(_) => "-",
    }
}

fn order_line(
    alloc: Global,
    moment: Moment,
    errand: &Operation,
    done: Result<bool, OrderFault>,
) -> Result<String, AllocError>
    ensures { IfOk result (λ line. string_bytes line ≡ order_line_written moment (word_of errand.now) done) }
{
    let (seconds, word) = (moment.seconds(), word_of(errand));
    format!(in alloc; "{seconds} officer {word} {}\n", order_status(done))
}

fn line_of(
    alloc: Global,
    routes: &Routes,
    moment: Moment,
    noted: LogEntry<'_>,
) -> Result<String, AllocError>
    ensures { IfOk result (λ line. IsLineOf moment noted.entry (string_bytes line)) }
{
    match noted {
        LogEntry::Call(done) => call_line(alloc, routes, moment, done),
        LogEntry::Ended(bytes, reason) => ended_line(alloc, routes, moment, bytes, reason),
        LogEntry::WrongKeys => wrong_keys_line(alloc, moment),
        LogEntry::Order(errand, done) => order_line(alloc, moment, errand, done),
    }
}

// The line of an event, after the report of dropped lines.
fn text_of_line(
    alloc: Global,
    routes: &Routes,
    left_out: u64,
    moment: Moment,
    noted: LogEntry<'_>,
) -> Result<String, AllocError>
    ensures { IfOk result (λ text. (line : List ℕ) × IsLineOf moment noted.entry line ×
        (string_bytes text ≡ left_out_written moment left_out ++ line)) }
{
    let line = line_of(alloc, routes, moment, noted)?;
    let told = left_out_line(alloc, moment.seconds(), left_out)?;
    format!(in alloc; "{told}{line}")
}

// Writes the line of an event, after the report of dropped lines; if the writer fails, a prefix of that may be
// written.
fn log_line<W: Write>(
    alloc: Global,
    routes: &Routes,
    writer: &mut W,
    left_out: u64,
    moment: Moment,
    noted: LogEntry<'_>,
) -> Result<(), DeskFault>
    ensures { IsLogged left_out moment noted.entry (W.contents writer.old) (W.contents writer.new) result }
{
    let text = text_of_line(alloc, routes, left_out, moment, noted)?;
    match write_reply(writer, text.as_bytes()) {
        Ok(()) => Ok(()),
        Err(fault) => Err(fault),
    }
}

/// The access log, over a writer that fails instead of blocking.
#[derive(Drop)]
pub(crate) struct Log<W> {
    writer: W,
    // How many lines were left out since the last one that was written.
    left_out: u64,
}

impl<W: Write> Log<W> {
    /// A log without dropped lines.
    pub(crate) fn new(writer: W) -> Log<W> {
        Log {
            writer,
            left_out: 0,
        }
    }

    /// Writes the line of an event; if the writer fails, drops and counts it.
    ///
    /// # Guarantees
    ///
    /// The written text holds no key: it is the line of `IsLineOf`, after the number of dropped lines.
    pub(crate) fn write_entry(
        &mut self,
        alloc: Global,
        routes: &Routes,
        moment: Moment,
        noted: LogEntry<'_>,
    )
        ensures { IsNoted self.old.left_out self.new.left_out moment noted.entry (W.contents self.old.writer)
            (W.contents self.new.writer) ⊎ IsLeftOut self.old.left_out self.new.left_out moment noted.entry
            (W.contents self.old.writer) (W.contents self.new.writer) }
    {
        match log_line(
            alloc,
            routes,
            &mut self.writer,
            self.left_out,
            moment,
            noted,
        ) {
            Ok(()) => self.left_out = 0,
            Err(_) => self.left_out = self.left_out.saturating_add(1),
        }
    }
}
