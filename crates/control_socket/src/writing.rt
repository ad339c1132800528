//! Writing all bytes to a writer, with interrupted calls repeated.

ghost use Rattle.std.specs.Prelude.{◌≡◌, ℕ, take, IfErr, OnErr, OnOk};
ghost use Rattle.std.specs.Io.KnownBytes.{Appends};

use http_desk::DeskFault;
use http_head::is_interrupted;
use std::io::Write;

/// Writes all bytes, without a flush.
///
/// # Errors
///
/// `Write` if the writer fails: a prefix of the bytes was written.
pub fn write_reply<W: Write>(writer: &mut W, bytes: &[u8]) -> Result<(), DeskFault>
    ensures ok { OnOk result (Appends (W.contents writer.old) (W.contents writer.new) bytes.now) }
    ensures beginning { OnErr result ((n : ℕ) ×
        Appends (W.contents writer.old) (W.contents writer.new) (take n bytes.now)) }
    ensures fault { IfErr result (λ e. e ≡ DeskFault.Write) }
{
    let mut at = 0;
    for _ in 0..u64::MAX {
        if at >= bytes.len() {
            return Ok(());
        }
        match writer.write(&bytes[at..]) {
            Ok(n) => {
                if n == 0 {
                    return Err(DeskFault::Write);
                }
                at += n;
            }
            Err(e) => {
                if !is_interrupted(&e) {
                    return Err(DeskFault::Write);
                }
            }
        }
    }
    Err(DeskFault::Write)
}
