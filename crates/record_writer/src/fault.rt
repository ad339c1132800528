//! Faults of writing a record.

use memory::Memory;
use std::io::Error;
use std::{error, fmt};

/// Why a record was not written completely.
#[derive(Debug, Drop)]
pub enum WriteFault {
    /// An allocation failed.
    Memory,
    /// The writer returned an error.
    Writer(Error),
}

impl fmt::Display for WriteFault {
    ghost use Rattle.record_writer.specs.internal.FaultText.{fault_text};

    ghost output = { fault_text };

    fn fmt<W: fmt::Write>(&self, f: &mut fmt::Formatter<W>) -> fmt::Result {
        match self {
            WriteFault::Memory => f.write_str("out of memory"),
            WriteFault::Writer(error) => write!(f, "the writer failed: {error}"),
        }
    }
}

impl error::Error for WriteFault {}

impl From<Memory> for WriteFault {
    ghost use Rattle.std.specs.Prelude.{◌≡◌};
    ghost use Rattle.record_writer.specs.declared.fault.WriteFault.TheVariants as fault;

    ghost from_gives = { λ _ e. e ≡ fault.Memory };

    fn from(_refused: Memory) -> WriteFault {
        WriteFault::Memory
    }
}

impl From<Error> for WriteFault {
    ghost use Rattle.std.specs.Prelude.{◌≡◌};
    ghost use Rattle.record_writer.specs.declared.fault.WriteFault.TheVariants as fault;

    ghost from_gives = { λ error e. e ≡ fault.Writer error };

    fn from(failure: Error) -> WriteFault {
        WriteFault::Writer(failure)
    }
}
