//! The rules of shogi for `perft`.

use crate::fault::PerftFault;
use crate::game::Game;
use squares::{SMove, SPos};
use std::alloc::Global;

/// The initial position, as SFEN.
pub const OPENING: &str = "lnsgkgsnl/1r5b1/ppppppppp/9/9/9/PPPPPPPPP/1B5R1/LNSGKGSNL b - 1";

/// Shogi.
pub struct ShogiTree;

impl Game for ShogiTree {
    type Position = SPos;

    type Move = SMove;

    ghost use Rattle.std.specs.Prelude.{◌≡◌};
    ghost use Rattle.shogi_moves.specs.Rules as rules;
    ghost use Rattle.shogi_moves.specs.Listing as listing;
    ghost use Rattle.sfen.specs.UsiText as texts;

    ghost Legal = { rules.Legal };

    ghost order = { listing.move_cmp };

    ghost after = { rules.play };

    ghost Writes = { λ position played text. text ≡ texts.usi_text played };

    fn legal(alloc: Global, position: &SPos) -> Result<Vec<SMove>, PerftFault> {
        Ok(shogi_moves::legal(alloc, position)?)
    }

    fn count(alloc: Global, position: &SPos) -> Result<u64, PerftFault> {
        let moves = shogi_moves::legal(alloc, position)?;
        Ok(moves.as_slice().len() as u64)
    }

    fn play(position: &SPos, played: &SMove) -> SPos {
        shogi_moves::play(position, played)
    }

    fn write_move(alloc: Global, _position: &SPos, played: &SMove) -> Result<String, PerftFault> {
        Ok(sfen::write_usi(alloc, played)?)
    }
}
