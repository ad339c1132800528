//! Reading a request from a stream.
ghost use Rattle.std.specs.Prelude.{◌⊎◌, IfOk};
ghost use Rattle.std.specs.Io.KnownBytes.{IsAtEnd};
ghost use Rattle.http_head.specs.internal.Intake.{HasTaken};
ghost use Rattle.http_head.specs.Request.{IsDecided};

use crate::intake::RequestReader;
use std::alloc::AllocError;
use std::io::{Error, ErrorKind, Read};

/// Why reading failed.
#[derive(Clone, Copy, Debug, PartialEq, Eq)]
pub enum RequestReadFault {
    /// Out of memory.
    Memory,
    /// The reader failed.
    Read,
}

impl From<AllocError> for RequestReadFault {
    fn from(_error: AllocError) -> RequestReadFault {
        RequestReadFault::Memory
    }
}

/// Whether a call was interrupted by a signal and can be repeated.
pub fn is_interrupted(error: &Error) -> bool {
    matches!(error.kind(), ErrorKind::Interrupted)
}

/// Reads, after the bytes received before (`heard`), until the request is complete or rejected, or the input ends.
///
/// # Errors
///
/// - `Memory` if out of memory.
/// - `Read` if the reader fails.
///
/// # Guarantees
///
/// `taken`: the result is `heard` and the bytes read, in order.
pub fn read_request_bytes<R: Read>(
    heard: Vec<u8>,
    reader: &mut R,
) -> Result<Vec<u8>, RequestReadFault>
    ensures taken { IfOk result (λ v. HasTaken heard.items v.items (R.remaining reader.old)
        (R.remaining reader.new)) }
    ensures enough { IfOk result (λ v. IsAtEnd (R.remaining reader.new) ⊎ IsDecided v.items) }
{
    let mut bytes = heard;
    let mut intake = RequestReader::start();
    let mut chunk = [0_u8; 4096];
    if intake.is_enough(&bytes) {
        return Ok(bytes);
    }
    for _ in 0..u64::MAX {
        match reader.read(&mut chunk) {
            Ok(n) => {
                if n == 0 {
                    return Ok(bytes);
                }
                bytes.extend_from_slice(&chunk[..n])?;
                if intake.is_enough(&bytes) {
                    return Ok(bytes);
                }
            }
            Err(error) => {
                if !is_interrupted(&error) {
                    return Err(RequestReadFault::Read);
                }
            }
        }
    }
    Err(RequestReadFault::Read)
}
