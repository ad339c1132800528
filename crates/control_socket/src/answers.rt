//! Answers of the server to orders, and their wire format.

ghost use Rattle.std.specs.Prelude.{◌≡◌, ◌≢◌, ◌++◌, ◌<◌, ℕ, Bool, List, Some, IfOk, MatchOption, codes};
ghost use Rattle.std.specs.Prelude.{decimal, string_bytes};
ghost use Rattle.control_socket.specs.Answers.{status_text, encode_answer};
ghost use Rattle.control_socket.specs.internal.Answers.{ReadsAnswer, IsAnswerIn};

use crate::reading::{number_before, strip_prefix};
use std::alloc::{AllocError, Global};
use std::io;
use std::io::Read;

/// An answer to an order.
#[derive(Debug, Drop)]
pub struct OrderAnswer {
    /// Whether it was done, now or before; otherwise it was refused.
    pub is_done: bool,
    /// The output for the command line to print.
    pub text: Vec<u8>,
}

// The first line of an answer: exit status and length of the output in bytes.
fn heading(alloc: Global, is_done: bool, length: usize) -> Result<String, AllocError>
    ensures { IfOk result (λ line. string_bytes line ≡ status_text is_done ++ (decimal length ++ codes "\n")) }
{
    if is_done {
        format!(in alloc; "0 {length}\n")
    } else {
        format!(in alloc; "1 {length}\n")
    }
}

/// The bytes of an answer.
///
/// # Errors
///
/// `AllocError` if out of memory.
pub(crate) fn encode_answer(alloc: Global, answered: &OrderAnswer) -> Result<Vec<u8>, AllocError>
    ensures { IfOk result (λ bytes. bytes.items ≡ encode_answer answered.now.is_done answered.now.text.items) }
{
    let heading = heading(alloc, answered.is_done, answered.text.len())?;
    let mut bytes = heading.into_bytes();
    bytes.extend_from_slice(&answered.text)?;
    Ok(bytes)
}

// The exit status, and the bytes after it.
fn status_in(said: &[u8]) -> Option<(bool, &[u8])>
    ensures { MatchOption result ((done : Bool) (rest : List ℕ) → said.now ≢ status_text done ++ rest)
        (λ read. said.now ≡ status_text read.0 ++ read.1.now) }
{
    match strip_prefix(said, b"0 ".as_slice()) {
        Some(rest) => return Some((true, rest)),
        None => {}
    }
    match strip_prefix(said, b"1 ".as_slice()) {
        Some(rest) => Some((false, rest)),
        None => None,
    }
}

/// Decodes an answer; `None` if the bytes are no complete answer.
///
/// # Errors
///
/// `AllocError` if out of memory.
pub(crate) fn answer_in(alloc: Global, said: &[u8]) -> Result<Option<OrderAnswer>, AllocError>
    ensures { IfOk result (IsAnswerIn said.now) }
{
    let (is_done, rest) = match status_in(said) {
        Some(read) => read,
        None => return Ok(None),
    };
    let (length, rest) = match number_before(rest, b'\n') {
        Some(read) => read,
        None => return Ok(None),
    };
    if length != rest.len() as u64 {
        return Ok(None);
    }
    let mut text = Vec::new(alloc);
    text.extend_from_slice(rest)?;
    Ok(Some(OrderAnswer { is_done, text }))
}

/// Receives an answer; `None` if it is incomplete when the input ends.
///
/// # Errors
///
/// An `io::Error` if the reader fails, or if out of memory.
pub(crate) fn hear_answer<R: Read>(alloc: Global, reader: &mut R) -> io::Result<Option<OrderAnswer>>
    ensures { (said : List ℕ) → R.remaining reader.old ≡ Some said → IfOk result (ReadsAnswer said) }
{
    let mut said = Vec::new(alloc);
    reader.read_to_end(&mut said)?;
    let answer = answer_in(alloc, said.as_slice())?;
    Ok(answer)
}
