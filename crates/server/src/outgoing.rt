//! A reply on its way to a client.
//!
//! The reply is in memory, and the stream takes it piece by piece. A stream that takes nothing now is tried again
//! later, so no client is waited for.

ghost use Rattle.std.specs.Prelude.{◌≡◌, ◌≤◌, length};
ghost use Rattle.server.specs.internal.Outgoing.{StaysInOrder};
ghost use Rattle.server.specs.declared.outgoing.SendProgress.TheVariants as progress_is;

use std::io::{ErrorKind, Write};

/// The progress of sending a reply.
#[derive(Clone, Copy, Debug, PartialEq, Eq)]
pub(crate) enum SendProgress {
    /// The stream takes no more now.
    Blocked,
    /// The stream may take more now.
    Partial,
    /// The stream has taken the whole reply.
    Complete,
    /// Writing failed.
    Failed,
}

/// A reply, and the stream that takes it. The stream is of any type, so this code cannot write bytes of its own.
#[derive(Drop)]
pub(crate) struct OutgoingReply<T> {
    stream: T,
    bytes: Vec<u8>,
    // The number of bytes that the stream has taken.
    sent: usize,
}

impl<T: Write> OutgoingReply<T> {
    /// A reply of which nothing is sent yet.
    pub(crate) fn new(stream: T, bytes: Vec<u8>) -> OutgoingReply<T>
        ensures reply { result.bytes ≡ bytes }
        ensures unsent { result.sent ≡ 0 }
        ensures stream { result.stream ≡ stream }
    {
        OutgoingReply {
            stream,
            bytes,
            sent: 0,
        }
    }

    /// The stream.
    pub(crate) fn stream(&self) -> &T {
        &self.stream
    }

    /// The stream, after the reply was sent or the connection dropped.
    pub(crate) fn into_stream(self) -> T
        ensures { result ≡ self.stream }
    {
        self.stream
    }

    /// The size of the whole reply in bytes.
    pub(crate) fn size(&self) -> usize
        ensures { result ≡ length self.now.bytes.items }
    {
        self.bytes.len()
    }

    /// The number of bytes that the stream has taken.
    pub(crate) fn sent(&self) -> usize
        ensures { result ≡ self.now.sent }
    {
        self.sent
    }

    // Writes the next bytes by one call.
    fn send_part(&mut self) -> SendProgress
        ensures reply { self.new.bytes ≡ self.old.bytes }
        ensures in_order { StaysInOrder self.old.bytes.items self.old.sent self.new.sent
            (T.contents self.old.stream) (T.contents self.new.stream) }
        ensures complete { result ≡ progress_is.Complete → length self.new.bytes.items ≤ self.new.sent }
    {
        if self.sent >= self.bytes.len() {
            return SendProgress::Complete;
        }
        match self.stream.write(&self.bytes[self.sent..]) {
            Ok(n) => {
                self.sent += n;
                if n == 0 {
                    SendProgress::Failed
                } else {
                    SendProgress::Partial
                }
            }
            Err(error) => match error.kind() {
                ErrorKind::WouldBlock => SendProgress::Blocked,
                ErrorKind::Interrupted => SendProgress::Partial,
                _ => SendProgress::Failed,
            },
        }
    }

    /// Writes what the stream takes now.
    ///
    /// # Guarantees
    ///
    /// - `reply`, `in_order`: the stream gets the bytes of the reply alone, from its first one, in order and each once.
    /// - `complete`: at `Complete` it has all of them.
    pub(crate) fn send(&mut self) -> SendProgress
        ensures reply { self.new.bytes ≡ self.old.bytes }
        ensures in_order { StaysInOrder self.old.bytes.items self.old.sent self.new.sent
            (T.contents self.old.stream) (T.contents self.new.stream) }
        ensures complete { result ≡ progress_is.Complete → length self.new.bytes.items ≤ self.new.sent }
    {
        for _ in 0..u64::MAX {
            let progress = self.send_part();
            if progress != SendProgress::Partial {
                return progress;
            }
        }
        SendProgress::Failed
    }
}
