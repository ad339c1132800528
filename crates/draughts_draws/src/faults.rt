//! Faults of a sequence of moves.

use draughts_moves::Illegal;
use game_history::LineFault;

/// Why a sequence of draughts moves is rejected.
pub type DLineFault = LineFault<Illegal>;
