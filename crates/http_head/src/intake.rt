//! The progress of reading a request.
//!
//! It is kept between reads, so that no byte is scanned twice.
ghost use Rattle.std.specs.Prelude.{[], IsTrue};
ghost use Rattle.http_head.specs.internal.Intake.{IsIntake, IsBodyOf};
ghost use Rattle.http_head.specs.Request.{IsDecided};

use crate::framing::Scan;
use crate::head::read_head;

/// The state of reading a request.
#[derive(Clone, Copy)]
pub enum RequestReader {
    /// The end of the head is still searched for.
    Head(Scan),
    /// The head's length and the number of bytes needed after it.
    Body(usize, usize),
}

// Whether `count` bytes follow the head, which ends at `start`.
fn has_body(start: usize, count: usize, bytes: &[u8]) -> bool
    requires { IsBodyOf start count bytes.now }
    ensures { IsTrue result → IsDecided bytes.now }
{
    count <= bytes.len() - start
}

impl RequestReader {
    /// The state before the first byte.
    pub fn start() -> RequestReader
        ensures { IsIntake result [] }
    {
        RequestReader::Head(Scan::start())
    }

    // Continues the search for the end of the head; whether the bytes are decided.
    fn look(scan: Scan, bytes: &[u8]) -> (RequestReader, bool)
        requires { IsIntake (RequestReader.Head scan) bytes.now }
        ensures still { IsIntake result.0 bytes.now }
        ensures enough { IsTrue result.1 → IsDecided bytes.now }
    {
        let limit = bytes.len().min(16384);
        let mut scan = scan;
        let at = scan.at;
        let behind = &bytes[at..limit];
        match scan.go_on(behind) {
            None => (RequestReader::Head(scan), bytes.len() > 16384),
            Some(end) => match read_head(&bytes[..end.length], end.lines) {
                Err(_) => (RequestReader::Body(end.length, 0), true),
                Ok(outline) => (
                    RequestReader::Body(end.length, outline.length),
                    outline.length <= bytes.len() - end.length,
                ),
            },
        }
    }

    /// Whether the bytes are a complete or rejected request; only bytes added since the last call are scanned.
    ///
    /// # Guarantees
    ///
    /// `enough`: if so, no further bytes change how the request is read.
    pub fn is_enough(&mut self, bytes: &[u8]) -> bool
        requires { IsIntake self.old bytes.now }
        ensures still { IsIntake self.new bytes.now }
        ensures enough { IsTrue result → IsDecided bytes.now }
    {
        match *self {
            RequestReader::Head(scan) => {
                let (intake, enough) = RequestReader::look(scan, bytes);
                *self = intake;
                enough
            }
            RequestReader::Body(start, count) => has_body(start, count, bytes),
        }
    }
}
