//! The errors of the reader of games.

ghost use Rattle.std.specs.Prelude.{◌≡◌};
ghost use Rattle.pdn_games.specs.internal.Causes.{cause_number};

use draughts_moves::{Illegal, Memory};
use std::alloc::{AllocError, AllocFailed};
use std::error::Error;
use std::fmt;

/// The reason why the text of a game is refused. Offsets count bytes from 0, plies count from 1.
#[derive(Clone, Copy, Debug, PartialEq, Eq)]
pub enum PdnFault {
    /// Out of memory.
    Memory,
    /// The text has no token (offset 0), or its first syntax error is at this byte.
    BadText(usize),
    /// Two or more legal captures match the text of this ply.
    Ambiguous(usize),
    /// The text of this ply denotes no legal move, with the reason.
    Illegal { ply: usize, cause: Illegal },
    /// The `GameType` tag names another kind of draughts.
    OtherType,
    /// The `FEN` tag does not denote the initial position.
    OtherOpening,
    /// The text does not state how the game ended.
    Unfinished,
    /// The rules had ended the game before this ply.
    AfterEnd(usize),
    /// The result differs from the rules' result or from the text's own `Result` tag.
    ResultDiffers,
}

// The club's number of the reason why a move is illegal.
fn cause_number(cause: Illegal) -> u8
    ensures { result ≡ cause_number cause }
{
    match cause {
        Illegal::NoSuchMove => 10,
        Illegal::MustCapture => 11,
        Illegal::NotLongest => 12,
    }
}

impl fmt::Display for PdnFault {
    ghost use Rattle.std.specs.Prelude.{Some};
    ghost use Rattle.pdn_games.specs.internal.FaultText.{fault_text};

    ghost output = { λ fault. Some (fault_text fault) };

    fn fmt<W: fmt::Write>(&self, f: &mut fmt::Formatter<W>) -> fmt::Result {
        match self {
            PdnFault::Memory => f.write_str("out of memory"),
            PdnFault::BadText(offset) => write!(f, "20 BadText {offset}"),
            PdnFault::Ambiguous(ply) => write!(f, "21 Ambiguous {ply}"),
            PdnFault::Illegal { ply, cause } => {
                let number = cause_number(*cause);
                write!(f, "22 Illegal {ply} {number}")
            }
            PdnFault::OtherType => f.write_str("23 OtherType"),
            PdnFault::OtherOpening => f.write_str("24 OtherOpening"),
            PdnFault::Unfinished => f.write_str("25 Unfinished"),
            PdnFault::AfterEnd(ply) => write!(f, "26 AfterEnd {ply}"),
            PdnFault::ResultDiffers => f.write_str("27 ResultDiffers"),
        }
    }
}

impl Error for PdnFault {}

impl From<AllocError> for PdnFault {
    ghost use Rattle.std.specs.Prelude.{◌≡◌};
    ghost use Rattle.pdn_games.specs.declared.faults.PdnFault.TheVariants as fault;

    ghost from_gives = { λ _ e. e ≡ fault.Memory };

    fn from(_e: AllocError) -> PdnFault {
        PdnFault::Memory
    }
}

impl<T: Drop> From<AllocFailed<T>> for PdnFault {
    ghost use Rattle.std.specs.Prelude.{◌≡◌};
    ghost use Rattle.pdn_games.specs.declared.faults.PdnFault.TheVariants as fault;

    ghost from_gives = { λ _ e. e ≡ fault.Memory };

    fn from(_e: AllocFailed<T>) -> PdnFault {
        PdnFault::Memory
    }
}

impl From<Memory> for PdnFault {
    ghost use Rattle.std.specs.Prelude.{◌≡◌};
    ghost use Rattle.pdn_games.specs.declared.faults.PdnFault.TheVariants as fault;

    ghost from_gives = { λ _ e. e ≡ fault.Memory };

    fn from(_e: Memory) -> PdnFault {
        PdnFault::Memory
    }
}
