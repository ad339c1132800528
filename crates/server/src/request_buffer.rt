//! The bytes of a request that were received so far.

ghost use Rattle.std.specs.Prelude.{◌≡◌, ◌≢◌, []};
ghost use Rattle.control_socket.specs.internal.Received.{HasReceived};
ghost use Rattle.server.specs.declared.request_buffer.ReadProgress.TheVariants as progress_is;

use http_desk::is_foreign;
use http_head::{ParseState, is_interrupted, read_request};
use std::alloc::Global;
use std::io::{ErrorKind, Read};

// The bytes read by one call.
const PIECE_BYTES: usize = 4096;

/// The progress of reading a request.
#[derive(Clone, Copy, Debug, PartialEq, Eq)]
pub(crate) enum ReadProgress {
    /// More bytes are needed.
    Partial,
    /// The request is complete.
    Complete,
    /// The request is rejected; further bytes change nothing.
    Rejected,
    /// The client closed its side before the request was complete.
    Eof,
    /// Reading failed, or out of memory.
    Failed,
}

/// The received bytes of a request.
#[derive(Drop)]
pub(crate) struct RequestBuffer {
    bytes: Vec<u8>,
}

impl RequestBuffer {
    /// An empty buffer.
    pub(crate) fn new(alloc: Global) -> RequestBuffer
        ensures { result.bytes.items ≡ [] }
    {
        RequestBuffer {
            bytes: Vec::new(alloc),
        }
    }

    /// The received bytes.
    pub(crate) fn into_bytes(self) -> Vec<u8>
        ensures { result ≡ self.bytes }
    {
        self.bytes
    }

    /// Whether nothing was received.
    pub(crate) fn is_empty(&self) -> bool {
        self.bytes.is_empty()
    }

    /// The received bytes, which stay.
    pub(crate) fn as_bytes(&self) -> &[u8]
        ensures { result.now ≡ self.now.bytes.items }
    {
        &self.bytes
    }

    // The progress that the received bytes make; a request for another host than these is rejected.
    fn progress(&self, hosts: &[String]) -> ReadProgress {
        match read_request(&self.bytes).seen {
            ParseState::Unfinished if is_foreign(hosts, &self.bytes) => ReadProgress::Rejected,
            ParseState::Unfinished => ReadProgress::Partial,
            ParseState::Whole(_) => ReadProgress::Complete,
            ParseState::Refused(_) => ReadProgress::Rejected,
        }
    }

    /// Reads the available bytes from a non-blocking reader, for a server that answers for these hosts.
    ///
    /// # Guarantees
    ///
    /// `received`: what is added to the buffer is what was read, in order; at `Failed` the last bytes may be lost.
    pub(crate) fn take<R: Read>(&mut self, reader: &mut R, hosts: &[String]) -> ReadProgress
        ensures received { HasReceived (result ≢ progress_is.Failed) self.old.bytes.items self.new.bytes.items
            (R.remaining reader.old) (R.remaining reader.new) }
    {
        let mut piece = [0_u8; PIECE_BYTES];
        for _ in 0..u64::MAX {
            match reader.read(&mut piece) {
                Ok(n) => {
                    if n == 0 {
                        return ReadProgress::Eof;
                    }
                    if self.bytes.extend_from_slice(&piece[..n]).is_err() {
                        return ReadProgress::Failed;
                    }
                    let come = self.progress(hosts);
                    if come != ReadProgress::Partial {
                        return come;
                    }
                }
                Err(error) => {
                    if matches!(error.kind(), ErrorKind::WouldBlock) {
                        return ReadProgress::Partial;
                    }
                    if !is_interrupted(&error) {
                        return ReadProgress::Failed;
                    }
                }
            }
        }
        ReadProgress::Failed
    }
}
