//! The errors of the readers.

use draughts_moves::{Illegal, Memory};
use std::alloc::AllocFailed;
use std::error::Error;
use std::fmt;

/// The reason why the text of a move is refused.
#[derive(Clone, Copy, Debug, PartialEq, Eq)]
pub enum MoveFault {
    /// Out of memory.
    Memory,
    /// Syntax error. The longest prefix that can begin a move's text has this many bytes.
    BadText(usize),
    /// Two or more legal captures match the text.
    Ambiguous,
    /// The text denotes no legal move, with the reason.
    Illegal(Illegal),
}

impl fmt::Display for MoveFault {
    fn fmt<W: fmt::Write>(&self, f: &mut fmt::Formatter<W>) -> fmt::Result {
        match self {
            MoveFault::Memory => f.write_str("out of memory"),
            MoveFault::BadText(offset) => write!(f, "no such text after {offset} bytes"),
            MoveFault::Ambiguous => f.write_str("more than one capture fits"),
            MoveFault::Illegal(cause) => write!(f, "{cause}"),
        }
    }
}

impl Error for MoveFault {}

impl From<Memory> for MoveFault {
    ghost use Rattle.std.specs.Prelude.{◌≡◌};
    ghost use Rattle.pdn.specs.declared.faults.MoveFault.TheVariants as fault;

    ghost from_gives = { λ _ e. e ≡ fault.Memory };

    fn from(_refused: Memory) -> MoveFault {
        MoveFault::Memory
    }
}

impl<T: Drop> From<AllocFailed<T>> for MoveFault {
    ghost use Rattle.std.specs.Prelude.{◌≡◌};
    ghost use Rattle.pdn.specs.declared.faults.MoveFault.TheVariants as fault;

    ghost from_gives = { λ _ e. e ≡ fault.Memory };

    fn from(_refused: AllocFailed<T>) -> MoveFault {
        MoveFault::Memory
    }
}

/// The reason why the text of a position is refused.
#[derive(Clone, Copy, Debug, PartialEq, Eq)]
pub enum FenFault {
    /// Out of memory.
    Memory,
    /// Syntax error, where the longest prefix that can begin a position's text has this many bytes; or the item that
    /// begins at this byte names an occupied square.
    BadText(usize),
}

impl fmt::Display for FenFault {
    fn fmt<W: fmt::Write>(&self, f: &mut fmt::Formatter<W>) -> fmt::Result {
        match self {
            FenFault::Memory => f.write_str("out of memory"),
            FenFault::BadText(offset) => write!(f, "no such text after {offset} bytes"),
        }
    }
}

impl Error for FenFault {}

impl<T: Drop> From<AllocFailed<T>> for FenFault {
    ghost use Rattle.std.specs.Prelude.{◌≡◌};
    ghost use Rattle.pdn.specs.declared.faults.FenFault.TheVariants as fault;

    ghost from_gives = { λ _ e. e ≡ fault.Memory };

    fn from(_refused: AllocFailed<T>) -> FenFault {
        FenFault::Memory
    }
}
