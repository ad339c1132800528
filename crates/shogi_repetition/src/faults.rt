//! Faults of a sequence of moves.

use game_history::LineFault;
use shogi_moves::Illegal;

/// Why a sequence of shogi moves is rejected.
pub type SLineFault = LineFault<Illegal>;
