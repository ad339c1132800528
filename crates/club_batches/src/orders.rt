//! Parsing of a batch from text.

ghost use Rattle.std.specs.Prelude.{◌≡◌, ◌≤◌, ◌++◌, ◌∷◌, [], true, false, IfErr, IfOk, OnOk, codes, length, map};
ghost use Rattle.std.specs.Str.{IsUtf8};
ghost use Rattle.club_batches.specs.internal.Orders.{AreOrders, HasBadLine, IsAdded, IsBadBatch, IsBadLine};
ghost use Rattle.club_batches.specs.internal.Orders.{IsErrorWith};
ghost use Rattle.club_batches.specs.internal.Orders.{IsNoOrder, IsOrder, IsParserMessage, SaysOfLine, arguments_in};
ghost use Rattle.club_batches.specs.internal.Orders.{is_passed_over, line_error, most_bytes, most_orders};
ghost use Rattle.club_batches.specs.internal.Orders.{no_text_line};
ghost use Rattle.std.specs.Str.Lossy.{utf8_valid_len};
ghost use Rattle.club_batches.specs.internal.Orders.{order_at, order_lines, reads_input};

use cli::{BadWords, Batch, BatchOrder, read_line};
use clocks::Moment;
use club_requests::{Command, Question, Request, Who};
use std::alloc::{AllocError, Global};

/// The maximum length of a batch's text, in bytes.
pub const BATCH_BYTES: usize = 1_048_576;

/// The maximum number of commands in a batch.
const MOST_ORDERS: usize = 10_000;

/// A command of a batch with its line number, counted from 1.
#[derive(Debug, Drop)]
pub struct BatchLine {
    pub number: u64,
    pub line: BatchOrder,
}

// An error with the number of its line.
fn bad_line(alloc: Global, number: u64, why: &str) -> BadWords
    ensures { IsErrorWith (λ message. message ≡ line_error number why.now) result }
{
    match format!(in alloc; "error: line {number}: {why}") {
        Ok(text) => BadWords::Text(text),
        Err(_) => BadWords::Memory,
    }
}

// An error of the parser, with the line number added.
fn bad_words(alloc: Global, number: u64, bad: &BadWords) -> BadWords
    ensures { IsErrorWith (SaysOfLine number (IsParserMessage bad.now)) result }
{
    match bad {
        BadWords::Text(text) => match text.as_str().strip_prefix("error: ") {
            Some(why) => bad_line(alloc, number, why),
            None => bad_line(alloc, number, text.as_str()),
        },
        // Unreachable: a batch line has no `--version`.
        BadWords::Version(text) => bad_line(alloc, number, text.as_str()),
        BadWords::Memory => BadWords::Memory,
    }
}

// The error for bytes that are not UTF-8; `place` is the length of the valid prefix.
fn no_text(alloc: Global, bytes: &[u8], place: usize) -> BadWords
    requires place { place ≡ utf8_valid_len bytes.now }
    requires few { length bytes.now ≤ most_bytes }
    ensures { IsErrorWith (λ message. message ≡ line_error (no_text_line bytes.now)
        (codes "a word is not UTF-8\n")) result }
{
    let before = bytes.get(..place).unwrap_or(bytes);
    let ends = before.iter().filter(|byte| **byte == b'\n').count();
    bad_line(
        alloc,
        (ends as u64).saturating_add(1),
        "a word is not UTF-8\n",
    )
}

// Whether a line is empty or a comment, which begins with `#`.
fn is_passed_over(line: &str) -> bool
    ensures { result ≡ is_passed_over line.now }
{
    line.starts_with('#') || line.trim().is_empty()
}

// Whether a line reads its record or its key from standard input, which a batch does not allow.
fn reads_input(line: &BatchOrder) -> bool
    ensures { result ≡ reads_input line.now }
{
    match &line.record {
        Some(path) => path.as_str() == "-",
        None => false,
    }
}

// The words of a line, after the program's name.
fn words_of<'a>(alloc: Global, line: &'a str) -> Result<Vec<&'a str>, AllocError>
    ensures { IfOk result (λ words. map (λ word. word.now) words.items ≡ arguments_in line.now) }
{
    let mut words = Vec::new(alloc);
    words.push("club")?;
    for word in line.split_ascii_whitespace() {
        words.push(word)?;
    }
    Ok(words)
}

fn order_of(alloc: Global, number: u64, line: &str) -> Result<BatchLine, BadWords>
    ensures ok { IfOk result (IsOrder (record { number = number; text = line.now })) }
    ensures err { IfErr result (IsErrorWith (SaysOfLine number
        (IsNoOrder (record { number = number; text = line.now })))) }
{
    let words = words_of(alloc, line)?;
    let order = match read_line(alloc, words.as_slice()) {
        Ok(order) => order,
        Err(bad) => return Err(bad_words(alloc, number, &bad)),
    };
    if reads_input(&order) {
        return Err(bad_line(alloc, number, "a line of a batch reads no standard input\n"));
    }
    Ok(BatchLine {
        number,
        line: order,
    })
}

// Parses a line and appends its command, if it has one.
fn push_line(
    alloc: Global,
    orders: &mut Vec<BatchLine>,
    number: u64,
    line: &str,
) -> Result<(), BadWords>
    requires few { length orders.old.items ≤ most_orders }
    ensures passed { is_passed_over line.now ≡ true → OnOk result (orders.new.items ≡ orders.old.items) }
    ensures order { is_passed_over line.now ≡ false →
        OnOk result (IsAdded (record { number = number; text = line.now }) orders.old.items orders.new.items) }
    ensures few { OnOk result (length orders.new.items ≤ most_orders) }
    ensures not_passed { IfErr result (λ bad. is_passed_over line.now ≡ false) }
    ensures err { IfErr result (IsErrorWith (SaysOfLine number
        (IsBadLine (length orders.old.items) (record { number = number; text = line.now })))) }
{
    if is_passed_over(line) {
        return Ok(());
    }
    if orders.as_slice().len() >= MOST_ORDERS {
        return Err(bad_line(alloc, number, "a batch has at most 10000 orders\n"));
    }
    let order = match order_of(alloc, number, line) {
        Ok(order) => order,
        Err(bad) => return Err(bad),
    };
    match orders.push(order) {
        Ok(()) => Ok(()),
        Err(rejected) => {
            drop(rejected);
            Err(BadWords::Memory)
        }
    }
}

// The commands of the lines of a text.
fn orders_in(alloc: Global, text: &str) -> Result<Vec<BatchLine>, BadWords>
    requires { length text.now ≤ most_bytes }
    ensures orders { IfOk result (λ orders. AreOrders (order_lines text.now) orders.items) }
    ensures few { IfOk result (λ orders. length orders.items ≤ most_orders) }
    ensures err { IfErr result (IsErrorWith (HasBadLine text.now)) }
{
    let mut orders = Vec::new(alloc);
    let mut number: u64 = 0;
    for line in text.lines() {
        number = number.saturating_add(1);
        match push_line(alloc, &mut orders, number, line) {
            Ok(()) => {}
            Err(bad) => return Err(bad),
        }
    }
    Ok(orders)
}

/// Parses a batch, one command per line. Empty lines and lines that begin with `#` are skipped; lines end with LF or
/// CRLF.
///
/// # Errors
///
/// - `BadWords::Text` if the text is longer than `BATCH_BYTES` or not UTF-8, has more than 10,000 commands, or has an
///   invalid line. Except for the length, the message has the number of the first such line.
/// - `BadWords::Memory` if out of memory.
///
/// # Guarantees
///
/// `orders`: one command for each line that is neither empty nor a comment, in order and with the line's number; each
/// is the one that the parser of the command line finds in the line's words. `size`, `utf8`, `few`: the text is within
/// the limits. `refused`: the message gives the first cause, and each line before the one that it names is valid.
pub fn read_orders(alloc: Global, bytes: &[u8]) -> Result<Vec<BatchLine>, BadWords>
    ensures orders { IfOk result (λ orders. AreOrders (order_lines bytes.now) orders.items) }
    ensures size { IfOk result (λ orders. length bytes.now ≤ most_bytes) }
    ensures utf8 { IfOk result (λ orders. IsUtf8 bytes.now) }
    ensures few { IfOk result (λ orders. length orders.items ≤ most_orders) }
    ensures refused { IfErr result (IsErrorWith (IsBadBatch bytes.now)) }
{
    if bytes.len() > BATCH_BYTES {
        let text = String::from_str(alloc, "error: a batch has at most 1048576 bytes\n")?;
        return Err(BadWords::Text(text));
    }
    let text = match std::str::from_utf8(bytes) {
        Ok(text) => text,
        Err(error) => return Err(no_text(alloc, bytes, error.valid_up_to())),
    };
    match orders_in(alloc, text) {
        Ok(orders) => Ok(orders),
        Err(bad) => Err(bad),
    }
}

/// A batch of these queries, without commands.
pub fn batch_for(alloc: Global, questions: Vec<Question>) -> Batch
    ensures questions { result.questions ≡ questions }
    ensures numbers { result.numbers.items ≡ [] }
    ensures requests { result.requests.items ≡ [] }
{
    Batch {
        questions,
        numbers: Vec::new(alloc),
        requests: Vec::new(alloc),
    }
}

/// Appends a command of the officer to a batch.
///
/// # Errors
///
/// `AllocError` if out of memory.
pub fn push_order(
    batch: &mut Batch,
    number: u64,
    command: Command,
    moment: Moment,
) -> Result<(), AllocError>
    ensures numbers { OnOk result (batch.new.numbers.items ≡ batch.old.numbers.items ++ number ∷ []) }
    ensures requests { OnOk result (batch.new.requests.items ≡
        batch.old.requests.items ++ order_at command moment ∷ []) }
    ensures questions { OnOk result (batch.new.questions ≡ batch.old.questions) }
{
    batch.numbers.push(number)?;
    batch.requests.push(Request {
        who: Who::Officer,
        command,
        moment,
    })?;
    Ok(())
}
