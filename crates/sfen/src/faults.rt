//! The errors of the readers.

use std::error::Error;
use std::fmt;

/// The reason why a text is refused.
#[derive(Clone, Copy, Debug, PartialEq, Eq)]
pub enum SfenFault {
    /// Syntax error. The longest prefix that can begin such a text has this many bytes.
    BadText(usize),
    /// The board and the hands have more pieces of a kind than a shogi set.
    TooManyPieces,
    /// A side has no king on the board, or more than one.
    Kings,
}

impl fmt::Display for SfenFault {
    ghost use Rattle.std.specs.Prelude.{Some};
    ghost use Rattle.sfen.specs.internal.FaultText.{fault_text};

    ghost output = { λ fault. Some (fault_text fault) };

    fn fmt<W: fmt::Write>(&self, f: &mut fmt::Formatter<W>) -> fmt::Result {
        match self {
            SfenFault::BadText(offset) => write!(f, "no such text after {offset} bytes"),
            SfenFault::TooManyPieces => f.write_str("more pieces of a kind than a set has"),
            SfenFault::Kings => f.write_str("a side has not one king"),
        }
    }
}

impl Error for SfenFault {}
