//! Faults of a sequence of moves.

use std::alloc::AllocFailed;
use std::error::Error;
use std::fmt;

/// Why a sequence of moves is rejected; `C` is the reason that a game's rules give for an illegal move.
///
/// Plies count from 1.
#[derive(Clone, Copy, Debug, PartialEq, Eq)]
pub enum LineFault<C> {
    /// An allocation failed.
    Memory,
    /// The move at this ply is illegal, for the given cause.
    Illegal { ply: usize, cause: C },
    /// The game had already ended before this ply.
    AfterEnd { ply: usize },
}

impl<C: fmt::Display> fmt::Display for LineFault<C> {
    ghost use Rattle.game_history.specs.internal.FaultText.{fault_text};

    ghost output = { fault_text C.output };

    fn fmt<W: fmt::Write>(&self, f: &mut fmt::Formatter<W>) -> fmt::Result {
        match self {
            LineFault::Memory => f.write_str("out of memory"),
            LineFault::Illegal { ply, cause } => write!(f, "ply {ply}: {cause}"),
            LineFault::AfterEnd { ply } => write!(f, "ply {ply}: the game has ended"),
        }
    }
}

impl<C: Error> Error for LineFault<C> {}

impl<C, T: Drop> From<AllocFailed<T>> for LineFault<C> {
    ghost use Rattle.std.specs.Prelude.{◌≡◌};
    ghost use Rattle.game_history.specs.declared.faults.LineFault.TheVariants.{Memory};

    ghost from_gives = { λ _ e. e ≡ Memory };

    fn from(_e: AllocFailed<T>) -> LineFault<C> {
        LineFault::Memory
    }
}
