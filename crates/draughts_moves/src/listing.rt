//! The list of legal moves.
ghost use Rattle.std.specs.Prelude.{◌≡◌, ◌↔◌, ◌++◌, ℕ, false, [], ◌∷◌, map, OnOk, IfOk, Contains};
ghost use Rattle.std.specs.FinSet as set;
ghost use Rattle.std.specs.List.Sorted.{IsStrictlySortedBy};
ghost use Rattle.squares.specs.declared.draughts.moves.DMove.{DMove};
ghost use Rattle.squares.specs.DraughtsSets.{ascending};
ghost use Rattle.draughts_moves.specs.Legal.{Legal};
ghost use Rattle.draughts_moves.specs.Listing.{move_cmp, step_to};
ghost use Rattle.draughts_moves.specs.internal.Listing.{quiet_in_order, quiet_list};

use crate::most::own_at;
use crate::move_visitor::longest_captures;
use crate::neighbors::men_before;
use crate::steps::steps_from;
use memory::Memory;
use squares::{DMove, DPos, DSet, Dsq};
use std::alloc::{AllocError, Global};

// Appends a move; reserved capacity is used without an allocation.
fn push_move(played: DMove, moves: &mut Vec<DMove>) -> Result<(), AllocError>
    ensures { OnOk result (moves.new.items ≡ moves.old.items ++ played ∷ []) }
{
    if moves.len() < moves.capacity() {
        moves.push_reserved(played);
        return Ok(());
    }
    moves.push(played)?;
    Ok(())
}

// Appends the quiet moves from a square to each square of a set.
fn push_steps(from: Dsq, targets: DSet, moves: &mut Vec<DMove>) -> Result<(), AllocError>
    ensures { OnOk result (moves.new.items ≡ moves.old.items ++ map (step_to from) (ascending targets)) }
{
    let mut rest = targets;
    while let Some(to) = rest.pop() {
        push_move(
            DMove {
                from,
                to,
                taken: DSet::new(),
            },
            moves,
        )?;
    }
    Ok(())
}

// Appends the quiet moves of the piece on a square, if it belongs to the side to move.
fn push_quiet(position: &DPos, square: Dsq, moves: &mut Vec<DMove>) -> Result<(), AllocError>
    ensures { OnOk result (moves.new.items ≡ moves.old.items ++ quiet_in_order position.now square) }
{
    match own_at(position, square) {
        Some(piece) => {
            let targets = steps_from(position, piece, square);
            push_steps(square, targets, moves)?;
            Ok(())
        }
        None => Ok(()),
    }
}

// The pieces of the side to move that may have a quiet move: kings, and men in front of an empty square.
fn may_go(position: &DPos) -> DSet
    ensures { (n : ℕ) → set.contains result n ≡ false → quiet_in_order position.now n ≡ [] }
{
    let own = position.squares_of(position.turn());
    let before = men_before(position.empty_squares(), position.turn());
    let able = before.union(position.kings());
    own.intersection(able)
}

// The initial capacity of a move list; few positions have more moves.
const ROOM: usize = 64;

// The quiet moves in order.
fn quiet_moves(alloc: Global, position: &DPos) -> Result<Vec<DMove>, AllocError>
    ensures { IfOk result (λ moves. moves.items ≡ quiet_list position.now) }
{
    let mut moves = Vec::with_capacity(alloc, ROOM)?;
    let mut able = may_go(position);
    while let Some(square) = able.pop() {
        push_quiet(position, square, &mut moves)?;
    }
    Ok(moves)
}

/// The legal moves, each once, ordered by start, end and the ascending list of captured squares.
///
/// If a capture exists they are the captures of the most pieces, otherwise the quiet moves.
///
/// # Errors
///
/// `Memory` if out of memory.
///
/// # Guarantees
///
/// `members`: the list holds the legal moves and no others. `in_order`: it is strictly sorted.
pub fn legal(alloc: Global, position: &DPos) -> Result<Vec<DMove>, Memory>
    ensures in_order { IfOk result (λ moves. IsStrictlySortedBy move_cmp moves.items) }
    ensures members { IfOk result (λ moves. (m : DMove)
        → Contains moves.items m ↔ Legal position.now m) }
{
    let found = longest_captures(alloc, position)?;
    if found.size > 0 {
        return Ok(found.moves);
    }
    let moves = quiet_moves(alloc, position)?;
    Ok(moves)
}
