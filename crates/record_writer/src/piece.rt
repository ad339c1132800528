//! Writing one piece of a record.

ghost use Rattle.std.specs.Prelude.{◌≢◌, OnOk};
ghost use Rattle.std.specs.Io.KnownBytes.{Appends};
ghost use Rattle.record_writer.specs.Pieces.{AppendsSome};

use crate::fault::WriteFault;
use std::io::{Error, ErrorKind, Write};

/// Writes a piece of a record.
///
/// An interrupted write is retried.
///
/// # Errors
///
/// `Writer` if the writer fails, or accepts none of the remaining bytes (`WriteZero`).
///
/// # Guarantees
///
/// `begun`: even after an error the output has grown by a prefix of the piece. `no_memory`: never returns `Memory`.
pub fn write_piece<W: Write>(writer: &mut W, bytes: &[u8]) -> Result<(), WriteFault>
    ensures whole { OnOk result (Appends (W.contents writer.old) (W.contents writer.new) bytes.now) }
    ensures begun { AppendsSome (W.contents writer.old) (W.contents writer.new) bytes.now }
    ensures no_memory { result ≢ Err WriteFault.Memory }
{
    let mut rest = bytes;
    'writes: for _ in 0..u64::MAX {
        if rest.is_empty() {
            return Ok(());
        }
        match writer.write(rest) {
            Ok(0) => return Err(WriteFault::Writer(Error::from(ErrorKind::WriteZero))),
            Ok(written) => rest = &rest[written..],
            Err(error) => {
                if error.kind() != ErrorKind::Interrupted {
                    return Err(WriteFault::Writer(error));
                }
            }
        }
    }
    Err(WriteFault::Writer(Error::from(ErrorKind::TimedOut)))
}
