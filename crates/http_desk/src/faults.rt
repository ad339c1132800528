//! Faults of a connection and of a club.
ghost use Rattle.std.specs.Prelude.{◌≡◌};
ghost use Rattle.http_desk.specs.Faults.{club_fault_number, club_fault_name, passes_soon};

use std::alloc::AllocError;
use thiserror::Error;

/// Why a connection got no complete reply.
#[derive(Clone, Copy, Debug, PartialEq, Eq, Error)]
pub enum DeskFault {
    /// Out of memory.
    #[error("memory was refused")]
    Memory,
    /// The request could not be read.
    #[error("the request could not be read")]
    Read,
    /// The reply could not be written; a prefix of it may have been.
    #[error("the reply could not be written")]
    Write,
}

impl From<AllocError> for DeskFault {
    ghost use Rattle.std.specs.Prelude.{◌≡◌};
    ghost use Rattle.http_desk.specs.declared.faults.DeskFault.TheVariants.{Memory};

    ghost from_gives = { λ _ fault. fault ≡ Memory };

    fn from(_error: AllocError) -> DeskFault {
        DeskFault::Memory
    }
}

/// Why a club is unavailable: its file could not be opened or is leased, a call failed, or there is no timestamp.
#[derive(Clone, Copy, Debug, PartialEq, Eq)]
pub enum ClubFault {
    /// The file is not a club file.
    Foreign,
    /// The file has another schema version.
    Schema,
    /// A table has rows that no club can have.
    Damaged,
    /// A database call failed.
    Store,
    /// An earlier call failed, and the file must be reopened.
    Reopen,
    /// Out of memory.
    Memory,
    /// The file is released to another program for some seconds.
    Leased,
    /// The system clock failed, or is out of the range of timestamps.
    Clock,
}

impl ClubFault {
    /// The error number in the reply: 70 to 76.
    pub fn number(self) -> u16
        ensures { result ≡ club_fault_number self }
    {
        match self {
            ClubFault::Foreign => 70,
            ClubFault::Schema => 71,
            ClubFault::Damaged => 72,
            ClubFault::Store => 73,
            ClubFault::Reopen => 74,
            ClubFault::Memory => 75,
            ClubFault::Leased => 73,
            ClubFault::Clock => 76,
        }
    }

    /// The error name in the reply.
    pub fn name(self) -> &'static str
        ensures { result.now ≡ club_fault_name self }
    {
        match self {
            ClubFault::Foreign => "Foreign",
            ClubFault::Schema => "Schema",
            ClubFault::Damaged => "Damaged",
            ClubFault::Store => "Store",
            ClubFault::Reopen => "Reopen",
            ClubFault::Memory => "Memory",
            ClubFault::Leased => "Store",
            ClubFault::Clock => "Input",
        }
    }

    /// Whether the fault passes within some seconds, so that the reply says when to try again.
    pub fn passes_soon(self) -> bool
        ensures { result ≡ passes_soon self }
    {
        match self {
            ClubFault::Foreign => false,
            ClubFault::Schema => false,
            ClubFault::Damaged => false,
            ClubFault::Store => false,
            ClubFault::Reopen => false,
            ClubFault::Memory => false,
            ClubFault::Leased => true,
            ClubFault::Clock => false,
        }
    }
}
