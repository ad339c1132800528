//! The fault of computing the rows that a command changes.

use crate::swept::SweepFault;
use club_rules::Memory;
use std::alloc::AllocFailed;
use std::error::Error;
use std::fmt;

/// Why the rows of a command cannot be computed.
#[derive(Clone, Copy, Debug, PartialEq, Eq, Drop)]
pub enum ChangeFault {
    /// Out of memory.
    Memory,
    /// The given rows are not those of a legal club.
    InconsistentRows,
}

impl fmt::Display for ChangeFault {
    ghost use Rattle.std.specs.Prelude.{Some};
    ghost use Rattle.club_changes.specs.internal.Faults.{fault_text};

    ghost output = { λ fault. Some (fault_text fault) };

    fn fmt<W: fmt::Write>(&self, f: &mut fmt::Formatter<W>) -> fmt::Result {
        match self {
            ChangeFault::Memory => f.write_str("out of memory"),
            ChangeFault::InconsistentRows => f.write_str("the rows are those of no club"),
        }
    }
}

impl Error for ChangeFault {}

impl From<Memory> for ChangeFault {
    ghost use Rattle.std.specs.Prelude.{◌≡◌};
    ghost use Rattle.club_changes.specs.declared.fault.ChangeFault.TheVariants as fault;

    ghost from_gives = { λ _ e. e ≡ fault.Memory };

    fn from(_refused: Memory) -> ChangeFault {
        ChangeFault::Memory
    }
}

impl<T: Drop> From<AllocFailed<T>> for ChangeFault {
    ghost use Rattle.std.specs.Prelude.{◌≡◌};
    ghost use Rattle.club_changes.specs.declared.fault.ChangeFault.TheVariants as fault;

    ghost from_gives = { λ _ e. e ≡ fault.Memory };

    fn from(_refused: AllocFailed<T>) -> ChangeFault {
        ChangeFault::Memory
    }
}

impl From<SweepFault> for ChangeFault {
    ghost use Rattle.std.specs.Prelude.{◌≡◌};
    ghost use Rattle.club_changes.specs.internal.Faults.{fault_of_sweep};

    ghost from_gives = { λ sweep e. e ≡ fault_of_sweep sweep };

    fn from(fault: SweepFault) -> ChangeFault {
        match fault {
            SweepFault::Memory => ChangeFault::Memory,
            SweepFault::InconsistentRows => ChangeFault::InconsistentRows,
        }
    }
}
