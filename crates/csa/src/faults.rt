//! The errors of the reader.

ghost use Rattle.std.specs.Prelude.{◌≡◌};
ghost use Rattle.csa.specs.internal.Causes.{cause_number};

use shogi_moves::{Illegal, Memory};
use std::alloc::{AllocError, AllocFailed};
use std::error::Error;
use std::fmt;

/// The reason why a text is refused. Lines and plies count from 1.
#[derive(Clone, Copy, Debug, PartialEq, Eq)]
pub enum CsaFault {
    /// Out of memory.
    Memory,
    /// The text has no statement, or the first malformed or misplaced statement is on this line.
    BadText { line: usize },
    /// The first statement is not one of the versions 2, 2.1 and 2.2.
    Version,
    /// The game does not begin from the even initial position with Black to move.
    OtherOpening,
    /// The move of this ply is illegal, with the reason.
    Illegal { ply: usize, cause: Illegal },
    /// The record does not state how the game ended.
    Unfinished,
    /// The rules had ended the game before this ply.
    AfterEnd { ply: usize },
    /// The result differs from that of the rules.
    ResultDiffers,
}

// The club's number of the reason why a move is illegal.
fn cause_number(cause: Illegal) -> u8
    ensures { result ≡ cause_number cause }
{
    match cause {
        Illegal::NoSuchMove => 13,
        Illegal::NotInHand => 14,
        Illegal::MustPromote => 15,
        Illegal::DeadDrop => 16,
        Illegal::TwoPawns => 17,
        Illegal::KingAttacked => 18,
        Illegal::DropMate => 19,
    }
}

impl fmt::Display for CsaFault {
    ghost use Rattle.std.specs.Prelude.{Some};
    ghost use Rattle.csa.specs.internal.FaultText.{fault_text};

    ghost output = { λ fault. Some (fault_text fault) };

    fn fmt<W: fmt::Write>(&self, f: &mut fmt::Formatter<W>) -> fmt::Result {
        match self {
            CsaFault::Memory => f.write_str("out of memory"),
            CsaFault::BadText { line } => write!(f, "40 BadText {line}"),
            CsaFault::Version => f.write_str("41 Version"),
            CsaFault::OtherOpening => f.write_str("42 OtherOpening"),
            CsaFault::Illegal { ply, cause } => {
                let number = cause_number(*cause);
                write!(f, "43 Illegal {ply} {number}")
            }
            CsaFault::Unfinished => f.write_str("44 Unfinished"),
            CsaFault::AfterEnd { ply } => write!(f, "45 AfterEnd {ply}"),
            CsaFault::ResultDiffers => f.write_str("46 ResultDiffers"),
        }
    }
}

impl Error for CsaFault {}

impl From<AllocError> for CsaFault {
    ghost use Rattle.std.specs.Prelude.{◌≡◌};
    ghost use Rattle.csa.specs.declared.faults.CsaFault.TheVariants as fault;

    ghost from_gives = { λ _ e. e ≡ fault.Memory };

    fn from(_e: AllocError) -> CsaFault {
        CsaFault::Memory
    }
}

impl<T: Drop> From<AllocFailed<T>> for CsaFault {
    ghost use Rattle.std.specs.Prelude.{◌≡◌};
    ghost use Rattle.csa.specs.declared.faults.CsaFault.TheVariants as fault;

    ghost from_gives = { λ _ e. e ≡ fault.Memory };

    fn from(_e: AllocFailed<T>) -> CsaFault {
        CsaFault::Memory
    }
}

impl From<Memory> for CsaFault {
    ghost use Rattle.std.specs.Prelude.{◌≡◌};
    ghost use Rattle.csa.specs.declared.faults.CsaFault.TheVariants as fault;

    ghost from_gives = { λ _ e. e ≡ fault.Memory };

    fn from(_e: Memory) -> CsaFault {
        CsaFault::Memory
    }
}
