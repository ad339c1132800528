//! The wire format of messages to the control socket: `file`, or an order with its command line and record.

ghost use Rattle.std.specs.Prelude.{◌≡◌, ◌++◌, ◌<◌, ℕ, List, IfOk, MatchOption, length};
ghost use Rattle.control_socket.specs.internal.Said.{IsLine, IsFrameOf, IsWithin, DecodesOrder, encode_order};
ghost use Rattle.control_socket.specs.declared.frames.Frame.TheVariants.{Part};

use crate::reading::{number_before, number_in, split_once, strip_prefix};
use clocks::Moment;
use std::alloc::{AllocError, Global};

// The most bytes of an order's command line.
const MOST_WORDS: u64 = 65_536;

// The most bytes of its record.
const MOST_TEXT: u64 = 65_537;

/// The most bytes read from one connection: at least those of the longest order.
pub(crate) const MOST_SAID: usize = 131_201;

/// The message that requests a lease.
pub(crate) const FILE: [u8; 5] = *b"file\n";

/// The parts of an order.
#[derive(Clone, Copy)]
pub(crate) struct OrderFrame<'a> {
    pub(crate) moment: Moment,
    // The words of the command line, separated by NUL.
    pub(crate) words: &'a [u8],
    // The record that the order imports, or nothing.
    pub(crate) text: &'a [u8],
}

/// The result of parsing a prefix of a message.
#[derive(Clone, Copy)]
pub(crate) enum Frame<'a> {
    /// More bytes are needed.
    Part,
    /// A request for a lease.
    File,
    /// An order.
    Order(OrderFrame<'a>),
    /// The bytes are malformed, whatever follows.
    Nothing,
}

// The first line of an order: timestamp, and lengths of command line and record in bytes.
#[derive(Clone, Copy)]
struct Heading {
    moment: u64,
    words: u64,
    text: u64,
}

/// The bytes of an order.
///
/// # Errors
///
/// `AllocError` if out of memory.
pub(crate) fn encode_order(
    alloc: Global,
    moment: Moment,
    words: &[u8],
    text: &[u8],
) -> Result<Vec<u8>, AllocError>
    ensures { IfOk result (λ bytes. bytes.items ≡ encode_order moment words.now text.now) }
{
    let (seconds, length, text_length) = (moment.seconds(), words.len(), text.len());
    let line = format!(in alloc; "order {seconds} {length} {text_length}\n")?;
    let mut bytes = line.into_bytes();
    bytes.extend_from_slice(words)?;
    bytes.extend_from_slice(text)?;
    Ok(bytes)
}

fn heading_of(line: &[u8]) -> Option<Heading>
    ensures { MatchOption result ((m w t : ℕ) → IsLine line.now m w t → ⊥)
        (λ heading. IsLine line.now heading.moment heading.words heading.text) }
{
    let rest = match strip_prefix(line, b"order ".as_slice()) {
        Some(rest) => rest,
        None => return None,
    };
    let (moment, rest) = match number_before(rest, b' ') {
        Some(read) => read,
        None => return None,
    };
    let (words, rest) = match number_before(rest, b' ') {
        Some(read) => read,
        None => return None,
    };
    match number_in(rest) {
        Some(text) => Some(Heading {
            moment,
            words,
            text,
        }),
        None => None,
    }
}

fn moment_at(seconds: u64) -> Option<Moment>
    ensures { MatchOption result (253402300799 < seconds) (λ moment. moment ≡ seconds) }
{
    Moment::new(seconds)
}

// Parses a prefix of a message.
fn parse_frame(said: &[u8]) -> Frame<'_>
    ensures { IsFrameOf said.now result }
{
    if said == FILE.as_slice() {
        return Frame::File;
    }
    let (line, rest) = match split_once(said, b'\n') {
        Some(parts) => parts,
        None => return Frame::Part,
    };
    let heading = match heading_of(line) {
        Some(heading) => heading,
        None => return Frame::Nothing,
    };
    let moment = match moment_at(heading.moment) {
        Some(moment) => moment,
        None => return Frame::Nothing,
    };
    if heading.words > MOST_WORDS {
        return Frame::Nothing;
    }
    if heading.text > MOST_TEXT {
        return Frame::Nothing;
    }
    let (words, text) = (heading.words as usize, heading.text as usize);
    if rest.len() < words + text {
        return Frame::Part;
    }
    if rest.len() > words + text {
        return Frame::Nothing;
    }
    let (words, text) = rest.split_at(words);
    Frame::Order(OrderFrame {
        moment,
        words,
        text,
    })
}

/// Parses a prefix of a message.
///
/// # Guarantees
///
/// `whole`: an encoded order is decoded to its parts. `part`: a proper prefix of one is `Part`.
pub(crate) fn decode_frame(said: &[u8]) -> Frame<'_>
    ensures is { IsFrameOf said.now result }
    ensures whole { (moment : ℕ) (words text : List ℕ) → IsWithin moment (length words) (length text) →
        said.now ≡ encode_order moment words text → DecodesOrder result moment words text }
    ensures part { (moment : ℕ) (words text more : List ℕ) → IsWithin moment (length words) (length text) →
        0 < length more → said.now ++ more ≡ encode_order moment words text → result ≡ Part }
{
    parse_frame(said)
}
