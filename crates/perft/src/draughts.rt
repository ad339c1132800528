//! The rules of draughts for `perft`.

use crate::fault::PerftFault;
use crate::game::Game;
use squares::{DMove, DPos};
use std::alloc::Global;

/// International draughts.
pub struct DraughtsTree;

impl Game for DraughtsTree {
    type Position = DPos;

    type Move = DMove;

    ghost use Rattle.draughts_moves.specs.Legal as rules;
    ghost use Rattle.draughts_moves.specs.Listing as listing;
    ghost use Rattle.pdn.specs.MoveText as texts;

    ghost Legal = { rules.Legal };

    ghost order = { listing.move_cmp };

    ghost after = { rules.play };

    ghost Writes = { texts.IsMoveText };

    fn legal(alloc: Global, position: &DPos) -> Result<Vec<DMove>, PerftFault> {
        Ok(draughts_moves::legal(alloc, position)?)
    }

    fn count(alloc: Global, position: &DPos) -> Result<u64, PerftFault> {
        let count = draughts_moves::legal_move_count(alloc, position)?;
        Ok(count as u64)
    }

    fn play(position: &DPos, played: &DMove) -> DPos {
        draughts_moves::play(position, played)
    }

    fn write_move(alloc: Global, position: &DPos, played: &DMove) -> Result<String, PerftFault> {
        Ok(pdn::write_move(alloc, position, played)?)
    }
}
