//! Draughts pieces.

use crate::sides::Side;

/// A draughts piece: a king if `king` is true, otherwise a man.
#[derive(Clone, Copy, Debug, PartialEq, Eq, Hash)]
pub struct DPiece {
    pub side: Side,
    pub king: bool,
}
