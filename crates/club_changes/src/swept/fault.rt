//! The fault of a sweep.

use club_rules::Memory;
use std::alloc::AllocFailed;
use std::error::Error;
use std::fmt;

/// Why the rows of a sweep cannot be computed.
#[derive(Clone, Copy, Debug, PartialEq, Eq)]
pub enum SweepFault {
    /// Out of memory.
    Memory,
    /// The given rows are not those of a legal club, or a sum overflows.
    InconsistentRows,
}

impl fmt::Display for SweepFault {
    ghost use Rattle.std.specs.Prelude.{Some};
    ghost use Rattle.club_changes.specs.internal.SweepFaults.{fault_text};

    ghost output = { λ fault. Some (fault_text fault) };

    fn fmt<W: fmt::Write>(&self, f: &mut fmt::Formatter<W>) -> fmt::Result {
        match self {
            SweepFault::Memory => f.write_str("out of memory"),
            SweepFault::InconsistentRows => f.write_str("the rows are those of no club"),
        }
    }
}

impl Error for SweepFault {}

impl From<Memory> for SweepFault {
    ghost use Rattle.std.specs.Prelude.{◌≡◌};
    ghost use Rattle.club_changes.specs.declared.swept.fault.SweepFault.TheVariants as fault;

    ghost from_gives = { λ _ e. e ≡ fault.Memory };

    fn from(_refused: Memory) -> SweepFault {
        SweepFault::Memory
    }
}

impl<T: Drop> From<AllocFailed<T>> for SweepFault {
    ghost use Rattle.std.specs.Prelude.{◌≡◌};
    ghost use Rattle.club_changes.specs.declared.swept.fault.SweepFault.TheVariants as fault;

    ghost from_gives = { λ _ e. e ≡ fault.Memory };

    fn from(_refused: AllocFailed<T>) -> SweepFault {
        SweepFault::Memory
    }
}
