//! Shogi moves.

use crate::shogi::piece::HandKind;
use crate::shogi::square::Ssq;

/// A move: `Step` moves a piece on the board, promoting it or not; `Drop` puts a piece from the hand on an empty
/// square.
#[derive(Clone, Copy, Debug, PartialEq, Eq, PartialOrd, Ord, Hash)]
pub enum SMove {
    Step { from: Ssq, to: Ssq, promote: bool },
    Drop { kind: HandKind, to: Ssq },
}
