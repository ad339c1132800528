//! The client of the control socket: sends an order and receives its answer.

ghost use Rattle.std.specs.Prelude.{◌≡◌, ◌<◌, ◌≤◌, ◌++◌, ◌∷◌, ℕ, IfOk, IfSome, MatchOption, OnOk, OnSome, map};
ghost use Rattle.std.specs.Prelude.{string_bytes, take};
ghost use Rattle.std.specs.Io.KnownBytes.{Appends};
ghost use Rattle.control_socket.specs.internal.Asking.{AreWords, joined, parted};
ghost use Rattle.control_socket.specs.Printed.{IsBegun, IsMade, print_of};
ghost use Rattle.control_socket.specs.internal.Said.{encode_order};

use crate::answers::{OrderAnswer, hear_answer};
use crate::deadline::with_deadline;
use crate::frames::encode_order;
use crate::peers::connect;
use crate::writing::write_reply;
use clocks::Moment;
use std::alloc::{AllocError, Global};
use std::io::Write;
use std::time::Duration;

// The time limit of an exchange; after it the order is executed without the server.
const ORDER_SECONDS: u64 = 10;

// The exit status of an order that was done.
const DONE: u8 = 0;

// The exit status of an order that was refused.
const REFUSED: u8 = 1;

// Appends a word, with a NUL before it if it is not the first.
fn add_word(all: &mut String, before: usize, word: &str) -> Result<(), AllocError>
    ensures first { before ≡ 0 → OnOk result (string_bytes all.new ≡ string_bytes all.old ++ word.now) }
    ensures next { 0 < before → OnOk result (string_bytes all.new ≡ string_bytes all.old ++ 0 ∷ word.now) }
{
    if before == 0 {
        all.push_str(word)?;
        return Ok(());
    }
    all.push('\0')?;
    all.push_str(word)?;
    Ok(())
}

fn in_line(alloc: Global, words: &[String]) -> Result<String, AllocError>
    ensures { IfOk result (λ all. string_bytes all ≡ joined (map string_bytes words.now)) }
{
    let mut all = String::new(alloc);
    for (place, word) in words.iter().enumerate() {
        add_word(&mut all, place, word.as_str())?;
    }
    Ok(all)
}

// The words, joined by NUL. Words without NUL, as all of a command line are, can be split again.
fn joined(alloc: Global, words: &[String]) -> Result<String, AllocError>
    ensures joined { IfOk result (λ all. string_bytes all ≡ joined (map string_bytes words.now)) }
    ensures parted { IfOk result (λ all. AreWords (map string_bytes words.now) →
        parted (string_bytes all) ≡ map string_bytes words.now) }
{
    let all = in_line(alloc, words)?;
    Ok(all)
}

// Sends an order; `None` if it could not be sent whole.
fn send_order<W: Write>(
    alloc: Global,
    writer: &mut W,
    words: &[String],
    moment: Moment,
    text: &[u8],
) -> Option<()>
    ensures { OnSome result (Appends (W.contents writer.old) (W.contents writer.new)
        (encode_order moment (joined (map string_bytes words.now)) text.now)) }
{
    let words = match joined(alloc, words) {
        Ok(words) => words,
        Err(_) => return None,
    };
    let bytes = match encode_order(alloc, moment, words.as_bytes(), text) {
        Ok(bytes) => bytes,
        Err(_) => return None,
    };
    match write_reply(writer, bytes.as_slice()) {
        Ok(()) => Some(()),
        Err(_) => None,
    }
}

/// Has the server that holds a file execute a command line at a timestamp, and returns its answer.
///
/// `None` if no server holds the file, or it gives no complete answer: then the order took effect once or not at all.
/// Commands are idempotent, so the caller can run it again.
pub fn order(
    rt: &HostRuntime,
    file: &str,
    words: &[String],
    moment: Moment,
    text: &[u8],
) -> Option<OrderAnswer> {
    let socket = connect(rt, file)?;
    let mut stream = with_deadline(rt, &socket, Duration::from_secs(ORDER_SECONDS));
    send_order(rt.alloc(), &mut stream, words, moment, text)?;
    hear_answer(rt.alloc(), &mut stream).ok()?
}

// Prints a text; returns the status if all of it was written.
fn print_to<W: Write>(writer: &mut W, text: &[u8], status: u8) -> Option<u8>
    ensures { MatchOption result
        ((n : ℕ) × Appends (W.contents writer.old) (W.contents writer.new) (take n text.now))
        (λ with_status. (with_status ≡ status) ×
        Appends (W.contents writer.old) (W.contents writer.new) text.now) }
{
    match write_reply(writer, text) {
        Ok(()) => Some(status),
        Err(_) => None,
    }
}

/// Prints an answer of the server: to standard output if it was done, to standard error if refused. Returns the exit
/// status, 0 or 1; `None` if a write fails.
///
/// # Guarantees
///
/// `printed`: all of the text was written to that stream, and nothing to the other; or, for `None`, a prefix of it.
#[tactic(auto, using(crate::proofs::PrintedLemmas::printed_done, crate::proofs::PrintedLemmas::printed_refused))]
pub fn print_answered<O: Write, E: Write>(
    answered: &OrderAnswer,
    out: &mut O,
    err: &mut E,
) -> Option<u8>
    ensures printed { MatchOption result
        (IsBegun (print_of answered.now.is_done answered.now.text.items)
        (O.contents out.old) (O.contents out.new) (E.contents err.old) (E.contents err.new))
        (IsMade (print_of answered.now.is_done answered.now.text.items)
        (O.contents out.old) (O.contents out.new) (E.contents err.old) (E.contents err.new)) }
    ensures small { IfSome result (λ status. status ≤ 1) }
{
    if answered.is_done {
        let status = print_to(out, answered.text.as_slice(), DONE);
        return status;
    }
    let status = print_to(err, answered.text.as_slice(), REFUSED);
    status
}
