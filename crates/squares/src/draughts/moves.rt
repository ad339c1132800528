//! A draughts move, by its effect on the board.

use crate::draughts::set::DSet;
use crate::draughts::square::Dsq;

/// A move: the square it starts from, the square it ends on, and the squares of the captured pieces.
///
/// Two capture routes with the same start, end and captured pieces are the same move.
#[derive(Clone, Copy, Debug, PartialEq, Eq)]
pub struct DMove {
    pub from: Dsq,
    pub to: Dsq,
    pub taken: DSet,
}
