//! Mate.
ghost use Rattle.std.specs.Prelude.{◌≡◌, ◌↔◌, IsTrue};
ghost use Rattle.shogi_moves.specs.internal.Layouts.{position_of};
ghost use Rattle.shogi_moves.specs.Rules.{Mate};
ghost use Rattle.shogi_moves.specs.internal.Computed.{leaves_king, escapes, some_move, is_mate, mates_by_pawn};

use crate::layout::Layout;
use crate::move_visitor::{MoveVisitor, visit_moves};
use crate::pseudo::drops_pawn;
use squares::{SMove, SPos};
use std::convert::Infallible;

/// Whether the side to move is mated: its king is in check and no move or drop removes the check.
///
/// Allocates nothing.
pub fn mated(position: &SPos) -> bool
    ensures { IsTrue result ↔ Mate position.now }
{
    is_mate(&Layout::from_position(position))
}

/// Whether the moving side's king is attacked after the move.
#[tactic(auto, unfolding(crate::specs::internal::Computed::leaves_king))]
pub fn leaves_king(layout: &Layout, played: &SMove) -> bool
    ensures { result ≡ leaves_king (position_of layout.now) played.now }
{
    layout.is_checked_after(played)
}

// A seeker that stops at the first move that leaves the king safe.
#[derive(Drop)]
struct AnyEscape {
    found: bool,
}

impl MoveVisitor for AnyEscape {
    type Fault = Infallible;

    ghost use Rattle.std.specs.Prelude.{◌||◌};
    ghost use Rattle.shogi_moves.specs.internal.Computed as computed;
    ghost use Rattle.shogi_moves.specs.internal.Seeking.{is_any, escapes-only, found_none, found_more};

    ghost test = { computed.escapes };

    ghost plus = { λ sought moves. record { found = sought.found || is_any moves } };

    fn take(&mut self, layout: &Layout, played: SMove) -> Result<(), Infallible> {
        if !leaves_king(layout, &played) {
            self.found = true;
        }
        Ok(())
    }

    fn is_done(&self) -> bool {
        self.found
    }

    ghost only = { escapes-only };

    ghost plus_none = { λ x i. record { found = found_none x.found i } };

    ghost plus_more = { λ x xs ys i. record { found = found_more x.found xs ys i } };
}

// Whether some move of the side to move leaves its king safe.
fn has_escape(layout: &Layout) -> bool
    ensures { result ≡ some_move (escapes (position_of layout.now)) }
{
    let mut sought = AnyEscape { found: false };
    match visit_moves(layout, &mut sought) {
        Ok(()) => sought.found,
    }
}

/// Whether the side to move is mated.
#[tactic(auto, unfolding(crate::specs::internal::Computed::is_mate))]
pub fn is_mate(layout: &Layout) -> bool
    ensures { result ≡ is_mate (position_of layout.now) }
{
    if !layout.is_checked() {
        return false;
    }
    !has_escape(layout)
}

/// Whether the move drops a pawn that gives mate.
#[tactic(auto, unfolding(crate::specs::internal::Computed::mates_by_pawn))]
pub fn mates_by_pawn(layout: &Layout, played: &SMove) -> bool
    ensures { result ≡ mates_by_pawn (position_of layout.now) played.now }
{
    if !drops_pawn(played) {
        return false;
    }
    match played {
        SMove::Step { .. } => false,
        SMove::Drop { kind, to } => is_mate(&layout.after_drop(*kind, *to)),
    }
}
