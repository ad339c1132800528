//! Errors of calls on an open club.

use club_reads::LookupFault;
use std::error::Error;
use std::fmt;

/// Why a call on an open club failed.
#[derive(Debug, Clone, Copy, PartialEq, Eq, Drop)]
pub enum StoreFault {
    /// A call of the database failed, or it holds rows that no club has.
    Store,
    /// An earlier call failed; the database must be opened again.
    Reopen,
    /// Out of memory.
    Memory,
    /// Only a club with an arbiter, of schema 3, can record the command. Nothing was done, and the club stays open.
    Schema(i64),
}

/// Writes the number and the name: `73 Store`; with the schema of the club `71 Schema 2`.
impl fmt::Display for StoreFault {
    ghost use Rattle.std.specs.Prelude.{Some};
    ghost use Rattle.store.specs.FaultText.{store_fault_text};

    ghost output = { λ fault. Some (store_fault_text fault) };

    fn fmt<W: fmt::Write>(&self, f: &mut fmt::Formatter<W>) -> fmt::Result {
        match self {
            StoreFault::Store => f.write_str("73 Store"),
            StoreFault::Reopen => f.write_str("74 Reopen"),
            StoreFault::Memory => f.write_str("75 Memory"),
            StoreFault::Schema(schema) => write!(f, "71 Schema {schema}"),
        }
    }
}

impl Error for StoreFault {}

impl From<LookupFault> for StoreFault {
    ghost use Rattle.std.specs.Prelude.{◌≡◌};
    ghost use Rattle.store.specs.internal.Faults.{called};

    ghost from_gives = { λ fault given. given ≡ called fault };

    fn from(fault: LookupFault) -> StoreFault {
        match fault {
            LookupFault::Store => StoreFault::Store,
            LookupFault::Memory => StoreFault::Memory,
        }
    }
}

/// Why a query was not answered completely.
#[derive(Debug, Clone, Copy, PartialEq, Eq, Drop)]
pub enum AskFault {
    /// A call on the club failed.
    Club(StoreFault),
    /// The writer failed. The club stays open.
    Output,
}

/// Writes the number and the name: `77 Output`.
impl fmt::Display for AskFault {
    ghost use Rattle.std.specs.Prelude.{Some};
    ghost use Rattle.store.specs.internal.FaultText.{ask_fault_text};

    ghost output = { λ fault. Some (ask_fault_text fault) };

    fn fmt<W: fmt::Write>(&self, f: &mut fmt::Formatter<W>) -> fmt::Result {
        match self {
            AskFault::Club(fault) => write!(f, "{fault}"),
            AskFault::Output => f.write_str("77 Output"),
        }
    }
}

impl Error for AskFault {}
