//! Search for a capture that matches a text, legal or not.
ghost use Rattle.std.specs.Prelude.{◌≡◌, ◌↔◌, [], IsTrue};
ghost use Rattle.draughts_moves.specs.Capture.{without};
ghost use Rattle.pdn.specs.internal.Reaching.{GoesTo};
ghost use Rattle.pdn.specs.internal.ReadMove.{SomeFits};

use crate::passing::unmatched_after;
use draughts_moves::{Mover, jumps_from, own_at};
use squares::{DPos, Dsq};

fn ends_here(middle: &[Dsq], to: Dsq, landing: Dsq) -> bool
    ensures { IsTrue result ↔ ((middle.now ≡ []) × (landing ≡ to)) }
{
    middle.is_empty() && landing == to
}

// Whether further jumps lead to `to` and land on the squares of `middle` in order before it.
fn goes_to(position: &DPos, mover: &Mover, middle: &[Dsq], to: Dsq) -> bool
    ensures { IsTrue result
        ↔ GoesTo (without position.now.board mover.now.origin) mover.now.piece
        mover.now.taken mover.now.at middle.now to }
{
    let jumps = jumps_from(position, mover);
    for (over, landing) in jumps.items() {
        if ends_here(middle, to, *landing) {
            return true;
        }
        let next = mover.after_jump(*over, *landing);
        if goes_to(position, &next, unmatched_after(middle, *landing), to) {
            return true;
        }
    }
    false
}

/// Whether the squares that a text names match any sequence of jumps, even one that is not a legal move.
pub fn some_fits(position: &DPos, from: Dsq, middle: &[Dsq], to: Dsq) -> bool
    ensures { IsTrue result ↔ SomeFits position.now from middle.now to }
{
    match own_at(position, from) {
        Some(piece) => goes_to(position, &Mover::new(piece, from), middle, to),
        None => false,
    }
}
