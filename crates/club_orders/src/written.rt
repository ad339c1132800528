//! Writes bytes, retrying after an interrupted call.

ghost use Rattle.std.specs.Prelude.{◌≡◌, ℕ, true, take};
ghost use Rattle.std.specs.Io.KnownBytes.{Appends};

use std::io::{Error, ErrorKind, Write};

fn is_interrupted(error: &Error) -> bool {
    matches!(error.kind(), ErrorKind::Interrupted)
}

/// Writes all bytes, without a flush. Returns false if the writer failed; then it has a prefix of them.
pub(crate) fn write_out<W: Write>(writer: &mut W, bytes: &[u8]) -> bool
    ensures whole { result ≡ true → Appends (W.contents writer.old) (W.contents writer.new) bytes.now }
    ensures beginning { (n : ℕ) × Appends (W.contents writer.old) (W.contents writer.new) (take n bytes.now) }
{
    let mut at = 0;
    for _ in 0..u64::MAX {
        if at >= bytes.len() {
            return true;
        }
        match writer.write(&bytes[at..]) {
            Ok(n) => {
                if n == 0 {
                    return false;
                }
                at += n;
            }
            Err(e) => {
                if !is_interrupted(&e) {
                    return false;
                }
            }
        }
    }
    false
}
