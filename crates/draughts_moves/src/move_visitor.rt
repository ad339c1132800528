//! The search for the longest captures, which finds their length and lists them in one pass.
ghost use Rattle.std.specs.Prelude.{◌≡◌, ◌+◌, ◌<◌, [], max, OnOk, IfOk};
ghost use Rattle.std.specs.FinSet as set;
ghost use Rattle.std.specs.List.Sorted.{IsStrictlySortedBy};
ghost use Rattle.squares.specs.OrderedLists.{put_all};
ghost use Rattle.draughts_moves.specs.Capture.{without};
ghost use Rattle.draughts_moves.specs.Search.{greatest, greatest_at, most};
ghost use Rattle.draughts_moves.specs.Listing.{move_cmp, moves};
ghost use Rattle.draughts_moves.specs.internal.Found.{kept, ends_of, captured};

use crate::first_jumps::can_jump;
use crate::found::LongestCaptures;
use crate::jumps::jumps_from;
use crate::most::{may_take, own_at};
use crate::mover::Mover;
use squares::{DMove, DPos, Dsq};
use std::alloc::{AllocError, Global};

// Continues a capture to each of its ends and restores the piece afterwards.
fn seek(position: &DPos, mover: &mut Mover, found: &mut LongestCaptures) -> Result<(), AllocError>
    requires { IsStrictlySortedBy move_cmp found.old.moves.items }
    ensures back { OnOk result (mover.new ≡ mover.old) }
    ensures size { OnOk result (found.new.size ≡ max found.old.size
        (set.len mover.old.taken
        + greatest (without position.now.board mover.old.origin)
        mover.old.piece mover.old.taken mover.old.at)) }
    ensures moves { OnOk result (found.new.moves.items ≡ put_all move_cmp
        (ends_of (without position.now.board mover.old.origin) mover.old found.new.size)
        (kept found.old.size found.new.size found.old.moves.items)) }
{
    if !can_jump(position, mover) {
        found.offer(DMove {
            from: mover.origin,
            to: mover.at,
            taken: mover.taken,
        })?;
        return Ok(());
    }
    let from = mover.at;
    let jumps = jumps_from(position, mover);
    for (over, to) in jumps.items() {
        mover.jump(*over, *to);
        seek(position, mover, found)?;
        mover.take_back(*over, from);
    }
    Ok(())
}

// Searches the captures of the piece on a square.
fn seek_from(position: &DPos, square: Dsq, found: &mut LongestCaptures) -> Result<(), AllocError>
    requires { IsStrictlySortedBy move_cmp found.old.moves.items }
    ensures size { OnOk result (found.new.size
        ≡ max found.old.size (greatest_at position.now square)) }
    ensures moves { OnOk result (found.new.moves.items ≡ put_all move_cmp
        (captured position.now found.new.size square)
        (kept found.old.size found.new.size found.old.moves.items)) }
{
    match own_at(position, square) {
        Some(piece) => {
            seek(position, &mut Mover::new(piece, square), found)?;
            Ok(())
        }
        None => Ok(()),
    }
}

/// The captures that take the most pieces, and their number of pieces, which is 0 if there is no capture.
///
/// # Errors
///
/// `AllocError` if out of memory.
pub fn longest_captures(alloc: Global, position: &DPos) -> Result<LongestCaptures, AllocError>
    ensures size { IfOk result (λ found. found.size ≡ most position.now) }
    ensures moves { IfOk result (λ found. 0 < found.size
        → found.moves.items ≡ put_all move_cmp (moves position.now found.size) []) }
{
    let mut found = LongestCaptures::new(alloc);
    let mut able = may_take(position);
    while let Some(square) = able.pop() {
        seek_from(position, square, &mut found)?;
    }
    Ok(found)
}
