//! Quiet moves of a piece.
ghost use Rattle.std.specs.Prelude.{◌≡◌, ◌==◌, ℕ, false, true, take};
ghost use Rattle.std.specs.FinMap as map;
ghost use Rattle.std.specs.FinSet as set;
ghost use Rattle.std.specs.List.{list_any};
ghost use Rattle.std.specs.Option.{option_map_or};
ghost use Rattle.squares.specs.DraughtsGeometry.{ray, step};
ghost use Rattle.draughts_moves.specs.Search.{clear_front, steps};

use squares::{DPiece, DPos, DSet, Direction, Dsq, Side};

// The next square in a direction as a set, empty at the edge of the board.
fn next_square(from: Dsq, toward: Direction) -> DSet
    ensures { (n : ℕ) → set.contains result n ≡ option_map_or (λ m. m == n) (step toward from) false }
{
    match from.step(toward) {
        Some(next) => DSet::new().with(next),
        None => DSet::new(),
    }
}

// The next square in a direction as a set, if it is empty.
fn step_ahead(position: &DPos, from: Dsq, toward: Direction) -> DSet
    ensures { (n : ℕ) → set.contains result n
        ≡ list_any (λ m. m == n) (clear_front (map.get position.now.board) (take 1 (ray toward from))) }
{
    let next = next_square(from, toward);
    next.intersection(position.empty_squares())
}

// The target squares of a man's quiet moves: the empty ones of the two squares in front of it.
fn man_steps(position: &DPos, piece: DPiece, from: Dsq) -> DSet
    requires { piece.king ≡ false }
    ensures { (n : ℕ) → set.contains result n
        ≡ list_any (λ m. m == n) (steps (map.get position.now.board) piece from) }
{
    match piece.side {
        Side::First => {
            let left = step_ahead(position, from, Direction::UpLeft);
            left.union(step_ahead(position, from, Direction::UpRight))
        }
        Side::Second => {
            let left = step_ahead(position, from, Direction::DownLeft);
            left.union(step_ahead(position, from, Direction::DownRight))
        }
    }
}

// The squares in a direction up to the first piece, without it.
fn clear_line(position: &DPos, from: Dsq, toward: Direction) -> DSet
    ensures { (n : ℕ) → set.contains result n
        ≡ list_any (λ m. m == n) (clear_front (map.get position.now.board) (ray toward from)) }
{
    let first = position.squares_of(Side::First);
    let pieces = first.union(position.squares_of(Side::Second));
    let line = from.line(toward);
    match from.first_on(toward, pieces) {
        None => line,
        Some(piece) => line.difference(piece.line(toward)).without(piece),
    }
}

// The target squares of a king's quiet moves: the four diagonals up to the first piece.
fn king_steps(position: &DPos, piece: DPiece, from: Dsq) -> DSet
    requires { piece.king ≡ true }
    ensures { (n : ℕ) → set.contains result n
        ≡ list_any (λ m. m == n) (steps (map.get position.now.board) piece from) }
{
    let up_left = clear_line(position, from, Direction::UpLeft);
    let up_right = clear_line(position, from, Direction::UpRight);
    let down_left = clear_line(position, from, Direction::DownLeft);
    let down_right = clear_line(position, from, Direction::DownRight);
    let down = down_left.union(down_right);
    up_left.union(up_right.union(down))
}

/// The target squares of a piece's quiet moves.
pub fn steps_from(position: &DPos, piece: DPiece, from: Dsq) -> DSet
    ensures { (n : ℕ) → set.contains result n
        ≡ list_any (λ m. m == n) (steps (map.get position.now.board) piece from) }
{
    if piece.king {
        return king_steps(position, piece, from);
    }
    man_steps(position, piece, from)
}
