//! The jumps of a piece from a square.
ghost use Rattle.std.specs.Prelude.{◌≡◌, ◌+◌, ◌<◌, ◌≤◌, ℕ, [], ◌∷◌, ◌++◌, is_some, length, map};
ghost use Rattle.std.specs.FinSet as set;
ghost use Rattle.draughts_moves.specs.Capture.{without, Cells};
ghost use Rattle.squares.specs.DraughtsSets.{Squares};
ghost use Rattle.squares.specs.declared.draughts.piece.DPiece.{DPiece};
ghost use Rattle.squares.specs.DraughtsGeometry.{ray};
ghost use Rattle.draughts_moves.specs.Search.{clear_front, king_jumps, man_jumps, line_jumps, jumps};
ghost use Rattle.draughts_moves.specs.internal.Search.{AreStanding, Meets};

use crate::mover::Mover;
use squares::{DPos, DSet, Direction, Dsq, Side};
use std::marker::Model;

/// A list of at most 36 jumps, each with the square jumped over and the landing square.
#[derive(Drop)]
pub struct Jumps {
    jumps: [(Dsq, Dsq); 36],
    len: usize,
}

impl Model for Jumps {
    ghost use Rattle.std.specs.Prelude.{◌≡◌, ℕ, ◌≤◌, List, length, take};

    ghost Value = { List (ℕ × ℕ) };

    ghost view = { λ j. take j.len j.jumps };

    ghost invariant = { λ j. (j.len ≤ 36) × (length j.jumps ≡ 36) };
}

impl Jumps {
    fn new(at: Dsq) -> Jumps
        ensures { result ≡ [] }
    {
        Jumps {
            jumps: [(at, at); 36],
            len: 0,
        }
    }

    fn push(&mut self, over: Dsq, to: Dsq)
        requires { length self.old < 36 }
        ensures { self.new ≡ self.old ++ (over, to) ∷ [] }
    {
        self.jumps[self.len] = (over, to);
        self.len += 1;
    }

    /// The number of jumps.
    pub fn len(&self) -> usize
        ensures { result ≡ length self.now }
    {
        self.len
    }

    /// The jumps in the order in which they were found.
    pub fn items(&self) -> &[(Dsq, Dsq)]
        ensures { result.now ≡ self.now }
    {
        &self.jumps[..self.len]
    }
}

// The squares of all pieces except the one on `origin`.
fn others(position: &DPos, origin: Dsq) -> DSet
    ensures { (n : ℕ) → set.contains result n
        ≡ is_some (without position.now.board origin n) }
{
    let first = position.squares_of(Side::First);
    let all = first.union(position.squares_of(Side::Second));
    all.without(origin)
}

// The pieces that a capturing piece can meet: enemies that are not yet captured, and all pieces except itself.
#[derive(Drop)]
pub(crate) struct Met {
    pub(crate) prey: DSet,
    pub(crate) pieces: DSet,
}

// The pieces that a capturing piece can meet.
pub(crate) fn look(position: &DPos, mover: &Mover) -> Met
    ensures { Meets (without position.now.board mover.now.origin) mover.now.piece mover.now.taken
        result.prey result.pieces }
{
    let enemies = position.squares_of(mover.piece.side.other());
    let left = enemies.difference(mover.taken);
    Met {
        prey: left.without(mover.origin),
        pieces: others(position, mover.origin),
    }
}

// Adds a jump for each empty square behind an enemy, up to the next piece.
fn landings(pieces: DSet, over: Dsq, toward: Direction, jumps: &mut Jumps)
    requires room { length jumps.old + 9 ≤ 36 }
    ensures added { (b : Cells) → AreStanding b pieces → jumps.new ≡ jumps.old ++ map (λ l. (over, l))
        (clear_front b (ray toward over)) }
    ensures room { length jumps.new ≤ length jumps.old + 9 }
{
    let mut at = over;
    for _ in 0..9_u8 {
        match at.step(toward) {
            None => return,
            Some(next) => {
                if pieces.contains(next) {
                    return;
                }
                jumps.push(over, next);
                at = next;
            }
        }
    }
}

// Adds a king's jumps in a direction, over the first piece in it.
fn king_jumps(met: &Met, at: Dsq, toward: Direction, jumps: &mut Jumps)
    requires room { length jumps.old + 9 ≤ 36 }
    ensures added { (b : Cells) (p : DPiece) (t : Squares) → Meets b p t met.now.prey met.now.pieces
        → jumps.new ≡ jumps.old ++ king_jumps b p t (ray toward at) }
    ensures room { length jumps.new ≤ length jumps.old + 9 }
{
    match at.first_on(toward, met.pieces) {
        None => {}
        Some(over) => {
            if met.prey.contains(over) {
                landings(met.pieces, over, toward, jumps);
            }
        }
    }
}

// Adds a man's jump in a direction, if there is one.
fn man_jumps(met: &Met, at: Dsq, toward: Direction, jumps: &mut Jumps)
    requires room { length jumps.old + 9 ≤ 36 }
    ensures added { (b : Cells) (p : DPiece) (t : Squares) → Meets b p t met.now.prey met.now.pieces
        → jumps.new ≡ jumps.old ++ man_jumps b p t (ray toward at) }
    ensures room { length jumps.new ≤ length jumps.old + 9 }
{
    match at.step(toward) {
        None => {}
        Some(over) => {
            if met.prey.contains(over) {
                match over.step(toward) {
                    None => {}
                    Some(to) => {
                        if !met.pieces.contains(to) {
                            jumps.push(over, to);
                        }
                    }
                }
            }
        }
    }
}

// Adds the jumps in a direction.
fn jumps_along(met: &Met, king: bool, at: Dsq, toward: Direction, jumps: &mut Jumps)
    requires room { length jumps.old + 9 ≤ 36 }
    ensures added { (b : Cells) (p : DPiece) (t : Squares) → Meets b p t met.now.prey met.now.pieces
        → p.king ≡ king → jumps.new ≡ jumps.old ++ line_jumps b p t (ray toward at) }
    ensures room { length jumps.new ≤ length jumps.old + 9 }
{
    if king {
        king_jumps(met, at, toward, jumps);
    } else {
        man_jumps(met, at, toward, jumps);
    }
}

/// The jumps that a piece can make next.
pub fn jumps_from(position: &DPos, mover: &Mover) -> Jumps
    ensures { result ≡ jumps (without position.now.board mover.now.origin)
        mover.now.piece mover.now.taken mover.now.at }
{
    let met = look(position, mover);
    let king = mover.piece.king;
    let mut jumps = Jumps::new(mover.at);
    jumps_along(&met, king, mover.at, Direction::UpLeft, &mut jumps);
    jumps_along(&met, king, mover.at, Direction::UpRight, &mut jumps);
    jumps_along(&met, king, mover.at, Direction::DownLeft, &mut jumps);
    jumps_along(&met, king, mover.at, Direction::DownRight, &mut jumps);
    jumps
}
