//! Faults of copying a club.

/// Why a club cannot be copied; names the database whose call failed.
#[derive(Debug, Clone, Copy, PartialEq, Eq, Drop)]
pub enum CopyFault {
    /// A call of the club's database failed, or its rows are invalid.
    Club,
    /// A call of the copy's database failed.
    Copy,
    /// Out of memory, except inside a database call.
    Memory,
}
