//! The faults of the store, as the HTTP application reports them.

ghost use Rattle.std.specs.Prelude.{◌≡◌};
ghost use Rattle.club_session.specs.Faults.{fault_of_opening};
ghost use Rattle.club_session.specs.internal.Faults.{fault_of_store, club_fault, fault_of_question};

use http_desk::ClubFault;
use store::{AskFault, OpenFault, StoreFault};

fn fault_of_store(fault: StoreFault) -> ClubFault
    ensures { result ≡ fault_of_store fault }
{
    match fault {
        StoreFault::Store => ClubFault::Store,
        StoreFault::Reopen => ClubFault::Reopen,
        StoreFault::Memory => ClubFault::Memory,
        StoreFault::Schema(_) => ClubFault::Schema,
    }
}

pub(crate) fn club_fault<A>(answer: Result<A, StoreFault>) -> Result<A, ClubFault>
    ensures { result ≡ club_fault answer }
{
    match answer {
        Ok(found) => Ok(found),
        Err(fault) => Err(fault_of_store(fault)),
    }
}

// The fault of a query. Answers are written to memory, so a failed write means out of memory.
pub(crate) fn fault_of_question(fault: AskFault) -> ClubFault
    ensures { result ≡ fault_of_question fault }
{
    match fault {
        AskFault::Club(fault) => fault_of_store(fault),
        AskFault::Output => ClubFault::Memory,
    }
}

/// The fault to report if a club file could not be opened.
pub fn fault_of_opening(fault: OpenFault) -> ClubFault
    ensures { result ≡ fault_of_opening fault }
{
    match fault {
        OpenFault::Foreign => ClubFault::Foreign,
        OpenFault::Schema(_) => ClubFault::Schema,
        OpenFault::Damaged(_) => ClubFault::Damaged,
        OpenFault::Store => ClubFault::Store,
        OpenFault::Memory => ClubFault::Memory,
    }
}
