//! The longest captures that a search has found so far.
ghost use Rattle.std.specs.Prelude.{◌≡◌, [], max, OnOk};
ghost use Rattle.std.specs.FinSet as set;
ghost use Rattle.std.specs.List.Sorted.{IsStrictlySortedBy};
ghost use Rattle.squares.specs.OrderedLists.{put_all};
ghost use Rattle.draughts_moves.specs.Listing.{move_cmp};
ghost use Rattle.draughts_moves.specs.internal.Found.{kept, if_takes};

use crate::ordering::put_move;
use squares::DMove;
use std::alloc::{AllocError, Global};

/// Captures in order, and the number of pieces that each of them takes.
#[derive(Drop)]
pub struct LongestCaptures {
    pub size: usize,
    pub moves: Vec<DMove>,
}

impl LongestCaptures {
    /// The empty result before a search.
    pub fn new(alloc: Global) -> LongestCaptures
        ensures size { result.size ≡ 0 }
        ensures moves { result.moves.items ≡ [] }
    {
        LongestCaptures {
            size: 0,
            moves: Vec::new(alloc),
        }
    }

    /// Adds a capture if it is not shorter than those found, and drops those that are shorter than it.
    ///
    /// Ignores a move that takes nothing.
    ///
    /// # Errors
    ///
    /// `AllocError` if out of memory.
    pub fn offer(&mut self, end: DMove) -> Result<(), AllocError>
        requires { IsStrictlySortedBy move_cmp self.old.moves.items }
        ensures size { OnOk result (self.new.size ≡ max self.old.size (set.len end.taken)) }
        ensures moves { OnOk result (self.new.moves.items ≡ put_all move_cmp
            (if_takes self.new.size end)
            (kept self.old.size self.new.size self.old.moves.items)) }
    {
        let size = end.taken.len();
        if size == 0 {
            return Ok(());
        }
        if size < self.size {
            return Ok(());
        }
        if size > self.size {
            self.size = size;
            self.moves.clear();
        }
        put_move(&mut self.moves, end)?;
        Ok(())
    }
}
