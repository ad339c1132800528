//! The errors of counting and printing.

use memory::Memory;
use std::alloc::AllocError;

/// The reason why counting or printing failed.
#[derive(Clone, Copy, Debug, PartialEq, Eq)]
pub enum PerftFault {
    /// Out of memory.
    Memory,
    /// A count overflows 64 bits.
    TooMany,
    /// The output failed.
    Output,
}

impl From<Memory> for PerftFault {
    fn from(_refused: Memory) -> PerftFault {
        PerftFault::Memory
    }
}

impl From<AllocError> for PerftFault {
    fn from(_refused: AllocError) -> PerftFault {
        PerftFault::Memory
    }
}

impl From<std::io::Error> for PerftFault {
    fn from(_failed: std::io::Error) -> PerftFault {
        PerftFault::Output
    }
}
