//! Questions about writers that accept few bytes at a time, or fill up.

use crate::rules::unanswered::Unanswered;
use crate::rules::words::one_word;
use record_writer::{WriteFault, write_piece};
use std::alloc::Global;
use std::io::{Error, ErrorKind, Result as WriteResult, Write};

/// A game with the head of its record.
pub trait Recorded {
    /// The record, written as a whole.
    fn text(&self, alloc: Global) -> Result<String, Unanswered>;

    /// Writes the record move by move; returns whether the writer accepted all of it.
    fn write_to<W: Write>(&self, alloc: Global, writer: &mut W) -> Result<bool, Unanswered>;
}

// Whether the record is appended in full to a writer that already holds a byte.
fn is_appended<G: Recorded>(alloc: Global, game: &G, text: &[u8]) -> Result<bool, Unanswered> {
    let mut bytes = vec![in alloc; b'>']?;
    let is_whole = game.write_to(alloc, &mut bytes)?;
    Ok(
        is_whole
            && bytes.as_slice().first() == Some(&b'>')
            && bytes.as_slice().get(1..) == Some(text),
    )
}

// Whether a writer that is too small for the record ends up with a prefix of it.
fn is_begun<G: Recorded>(alloc: Global, game: &G, beginning: &[u8]) -> Result<bool, Unanswered> {
    let mut bytes = vec![in alloc; 0u8; beginning.len()]?;
    let mut room: &mut [u8] = bytes.as_mut_slice();
    let is_whole = game.write_to(alloc, &mut room)?;
    Ok(!is_whole && bytes.as_slice() == beginning)
}

/// The record of a game, if writing it as a whole and move by move agree, and each smaller writer ends up with a
/// prefix.
pub fn written_in_each_way<G: Recorded>(alloc: Global, game: &G) -> Result<String, Unanswered> {
    let text = game.text(alloc)?;
    let bytes = text.as_bytes();
    if !is_appended(alloc, game, bytes)? {
        return one_word(alloc, "another text move by move");
    }
    for size in 0..bytes.len() {
        if !is_begun(alloc, game, &bytes[..size])? {
            return Ok(format!(in alloc; "another text in {size} bytes")?);
        }
    }
    Ok(text)
}

// A writer that accepts three bytes a call, is interrupted on every other call, and has a limited capacity.
#[derive(Drop)]
struct Slow {
    bytes: Vec<u8>,
    room: usize,
    interrupted: bool,
}

impl Write for Slow {
    fn write(&mut self, bytes: &[u8]) -> WriteResult<usize> {
        self.interrupted = !self.interrupted;
        if self.interrupted {
            return Err(Error::from(ErrorKind::Interrupted));
        }
        if self.room == 0 {
            return Err(Error::from(ErrorKind::StorageFull));
        }
        let taken = bytes.len().min(self.room).min(3);
        self.room = self.room.saturating_sub(taken);
        self.bytes.write(&bytes[..taken])
    }

    fn flush(&mut self) -> WriteResult<()> {
        Ok(())
    }
}

// The reason why the writing stopped, if it did.
fn stopped(written: Result<(), WriteFault>) -> &'static str {
    match written {
        Ok(()) => "all",
        Err(WriteFault::Memory) => "Memory",
        Err(WriteFault::Writer(error)) => match error.kind() {
            ErrorKind::StorageFull => "StorageFull",
            ErrorKind::WriteZero => "WriteZero",
            _ => "another error",
        },
    }
}

// The reason why the writing stopped, and the bytes written.
fn told(alloc: Global, stop: &str, bytes: &[u8]) -> Result<String, Unanswered> {
    let mut text = String::from_str(alloc, stop)?;
    text.push(' ')?;
    for byte in bytes {
        text.push(char::from(*byte))?;
    }
    Ok(text)
}

// Writes several pieces one after another.
fn appended(alloc: Global, pieces: &[String]) -> Result<String, Unanswered> {
    let mut bytes = Vec::new(alloc);
    for piece in pieces {
        match write_piece(&mut bytes, piece.as_bytes()) {
            Ok(()) => {}
            Err(_) => return one_word(alloc, "failed"),
        }
    }
    told(alloc, "all", bytes.as_slice())
}

// The content of a slow writer of this capacity after a write.
fn slowly(alloc: Global, room: usize, piece: &str) -> Result<String, Unanswered> {
    let mut writer = Slow {
        bytes: Vec::new(alloc),
        room,
        interrupted: false,
    };
    let stop = stopped(write_piece(&mut writer, piece.as_bytes()));
    told(alloc, stop, writer.bytes.as_slice())
}

// The content of a slice of this size after a write.
fn fitted(alloc: Global, size: usize, piece: &str) -> Result<String, Unanswered> {
    let mut bytes = vec![in alloc; 0u8; size]?;
    let mut room: &mut [u8] = bytes.as_mut_slice();
    let stop = stopped(write_piece(&mut room, piece.as_bytes()));
    told(alloc, stop, bytes.as_slice())
}

/// Answers a question about pieces that are written.
pub fn answer(alloc: Global, asked: &str, parts: &[String]) -> Result<String, Unanswered> {
    match (asked, parts) {
        ("append", pieces) => appended(alloc, pieces),
        ("slow", [room, piece]) => slowly(alloc, room.as_str().parse()?, piece.as_str()),
        ("fit", [size, piece]) => fitted(alloc, size.as_str().parse()?, piece.as_str()),
        _ => Err(Unanswered::Question),
    }
}
