//! Squares next to a piece that can be jumped over, and squares in front of an empty one.
ghost use Rattle.std.specs.Prelude.{◌≡◌, ◌&&◌, ℕ};
ghost use Rattle.std.specs.FinSet as set;
ghost use Rattle.draughts_moves.specs.internal.Search.{is_before, is_beside, next_before, next_in};

use squares::{DSet, Direction, Side};

/// The squares of a set whose next square in a direction is empty.
pub fn exposed_squares(squares: DSet, empty: DSet, toward: Direction) -> DSet
    ensures { (n : ℕ) → set.contains result n ≡ (set.contains squares n && next_in empty toward n) }
{
    squares.intersection(empty.predecessors(toward))
}

// The squares whose next square in a direction is in the set, with an empty square behind it.
fn beside_along(squares: DSet, empty: DSet, toward: Direction) -> DSet
    ensures { (n : ℕ) → set.contains result n ≡ next_before squares empty toward n }
{
    let near = exposed_squares(squares, empty, toward);
    near.predecessors(toward)
}

/// The squares that have, in any direction, a square of the set next to them and an empty square behind it.
pub fn jump_origins(squares: DSet, empty: DSet) -> DSet
    ensures { (n : ℕ) → set.contains result n ≡ is_beside squares empty n }
{
    let left = beside_along(squares, empty, Direction::UpLeft);
    let right = beside_along(squares, empty, Direction::UpRight);
    let up = left.union(right);
    let up_or_left = up.union(beside_along(squares, empty, Direction::DownLeft));
    up_or_left.union(beside_along(squares, empty, Direction::DownRight))
}

/// The squares from which a man of a side can step to a square of the set.
pub fn men_before(squares: DSet, side: Side) -> DSet
    ensures { (n : ℕ) → set.contains result n ≡ is_before side squares n }
{
    match side {
        Side::First => {
            let left = squares.predecessors(Direction::UpLeft);
            left.union(squares.predecessors(Direction::UpRight))
        }
        Side::Second => {
            let left = squares.predecessors(Direction::DownLeft);
            left.union(squares.predecessors(Direction::DownRight))
        }
    }
}
