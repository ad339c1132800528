//! The list of legal moves.
ghost use Rattle.std.specs.Prelude.{◌↔◌, IfOk, Contains};
ghost use Rattle.std.specs.List.Sorted.{IsStrictlySortedBy};
ghost use Rattle.squares.specs.declared.shogi.moves.SMove.{SMove};
ghost use Rattle.shogi_moves.specs.Rules.{Legal};
ghost use Rattle.shogi_moves.specs.Listing.{move_cmp};

use crate::checking::is_legal;
use crate::layout::Layout;
use crate::move_visitor::{MoveVisitor, visit_moves};
use memory::Memory;
use squares::{SMove, SPos};
use std::alloc::{AllocError, Global};
use std::marker::Model;

// A seeker that collects the legal moves.
#[derive(Drop)]
struct Listed {
    moves: Vec<SMove>,
}

impl Model for Listed {
    ghost use Rattle.std.specs.Prelude.{List};
    ghost use Rattle.squares.specs.declared.shogi.moves.SMove.{SMove};

    ghost Value = { List SMove };

    ghost view = { λ listed. listed.moves.items };
}

impl MoveVisitor for Listed {
    type Fault = AllocError;

    ghost use Rattle.std.specs.Prelude.{◌++◌};
    ghost use Rattle.shogi_moves.specs.internal.Computed as computed;
    ghost use Rattle.shogi_moves.specs.internal.Seeking.{is_legal-only, listed_none, listed_more};

    ghost test = { computed.is_legal };

    ghost plus = { λ listed moves. listed ++ moves };

    fn take(&mut self, layout: &Layout, played: SMove) -> Result<(), AllocError> {
        if is_legal(layout, &played) {
            self.moves.push(played)?;
        }
        Ok(())
    }

    fn is_done(&self) -> bool {
        false
    }

    ghost only = { is_legal-only };

    ghost plus_none = { listed_none };

    ghost plus_more = { listed_more };
}

/// The legal moves, each once and in order.
///
/// Steps come first, by start, end and not promoting first. Drops follow, by kind (rook, bishop, gold, silver, knight,
/// lance, pawn) and square. Squares are ordered by file, then rank.
///
/// # Errors
///
/// `Memory` if out of memory.
///
/// # Guarantees
///
/// `members`: the list holds the legal moves and no others. `in_order`: it is strictly sorted.
pub fn legal(alloc: Global, position: &SPos) -> Result<Vec<SMove>, Memory>
    ensures in_order { IfOk result (λ moves. IsStrictlySortedBy move_cmp moves.items) }
    ensures members { IfOk result (λ moves. (m : SMove)
        → Contains moves.items m ↔ Legal position.now m) }
{
    let mut listed = Listed {
        moves: Vec::new(alloc),
    };
    visit_moves(&Layout::from_position(position), &mut listed)?;
    Ok(listed.moves)
}
