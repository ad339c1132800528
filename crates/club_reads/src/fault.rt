//! The fault of a read.

use club_changes::ChangeFault;
use club_rules::Memory;
use cross_tables::StandingsFault;
use std::alloc::{AllocError, AllocFailed};

/// Why a call on the database of an open club failed.
#[derive(Debug, Clone, Copy, PartialEq, Eq, Drop)]
pub enum LookupFault {
    /// A call of the database failed, or a row is invalid.
    Store,
    /// Out of memory, except inside a database call.
    Memory,
}

impl From<store_sql::TableFault> for LookupFault {
    fn from(fault: store_sql::TableFault) -> LookupFault {
        match fault {
            store_sql::TableFault::Store => LookupFault::Store,
            store_sql::TableFault::Memory => LookupFault::Memory,
        }
    }
}

impl From<Memory> for LookupFault {
    fn from(_refused: Memory) -> LookupFault {
        LookupFault::Memory
    }
}

impl<T: Drop> From<AllocFailed<T>> for LookupFault {
    fn from(_refused: AllocFailed<T>) -> LookupFault {
        LookupFault::Memory
    }
}

impl From<AllocError> for LookupFault {
    fn from(_refused: AllocError) -> LookupFault {
        LookupFault::Memory
    }
}

impl From<ChangeFault> for LookupFault {
    fn from(fault: ChangeFault) -> LookupFault {
        match fault {
            ChangeFault::Memory => LookupFault::Memory,
            ChangeFault::InconsistentRows => LookupFault::Store,
        }
    }
}

impl From<StandingsFault> for LookupFault {
    fn from(fault: StandingsFault) -> LookupFault {
        match fault {
            StandingsFault::Memory => LookupFault::Memory,
            StandingsFault::TooMany => LookupFault::Store,
        }
    }
}
