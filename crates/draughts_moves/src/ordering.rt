//! The order of moves.
ghost use Rattle.std.specs.Prelude.{◌≡◌, OnOk};
ghost use Rattle.std.specs.List.Sorted.{IsStrictlySortedBy};
ghost use Rattle.squares.specs.OrderedLists.{put};
ghost use Rattle.draughts_moves.specs.Listing.{move_cmp};

use squares::DMove;
use std::alloc::AllocError;
use std::cmp::Ordering;

fn compare(a: &DMove, b: &DMove) -> Ordering
    ensures { result ≡ move_cmp a.now b.now }
{
    match a.from.number().cmp(&b.from.number()) {
        Ordering::Equal => match a.to.number().cmp(&b.to.number()) {
            Ordering::Equal => a.taken.compare(b.taken),
            other => other,
        },
        other => other,
    }
}

/// Inserts a move at its place in the sorted list, unless it is there already; searches from the end.
///
/// # Errors
///
/// `AllocError` if out of memory.
pub fn put_move(moves: &mut Vec<DMove>, played: DMove) -> Result<(), AllocError>
    requires { IsStrictlySortedBy move_cmp moves.old.items }
    ensures { OnOk result (moves.new.items ≡ put move_cmp played moves.old.items) }
{
    let count = moves.len();
    for passed in 0..count {
        let i = count - 1 - passed;
        let there = moves[i];
        match compare(&there, &played) {
            Ordering::Greater => {}
            Ordering::Equal => return Ok(()),
            Ordering::Less => {
                moves.insert(i + 1, played)?;
                return Ok(());
            }
        }
    }
    moves.insert(0, played)?;
    Ok(())
}
