//! The check of a single move.
ghost use Rattle.std.specs.Prelude.{◌≡◌, ◌↔◌, ◌≢◌, ◌<◌, IsTrue, IsOk, Err};
ghost use Rattle.std.specs.FinSet as set;
ghost use Rattle.squares.specs.declared.draughts.moves.DMove.{DMove};
ghost use Rattle.draughts_moves.specs.Capture.{HasCapture};
ghost use Rattle.draughts_moves.specs.Legal.{IsQuiet, IsCapture, IsShortCapture, Legal, HasMove};
ghost use Rattle.draughts_moves.specs.internal.Search.{is_step, can_move, has_move};
ghost use Rattle.draughts_moves.specs.Check.{IsCheck};
ghost use Rattle.draughts_moves.specs.internal.Check.{check_of};

use crate::first_jumps::can_jump;
use crate::most::{most, own_at};
use crate::mover::Mover;
use crate::reaches::reaches;
use crate::steps::steps_from;
use squares::{DMove, DPos, Dsq};
use std::fmt;

/// Why a move is illegal.
#[derive(Clone, Copy, Debug, PartialEq, Eq)]
pub enum Illegal {
    /// No piece of the side to move can make this move.
    NoSuchMove,
    /// The move captures nothing, but a capture exists.
    MustCapture,
    /// The capture takes fewer pieces than another one.
    NotLongest,
}

impl fmt::Display for Illegal {
    ghost use Rattle.std.specs.Prelude.{Some};
    ghost use Rattle.draughts_moves.specs.internal.Refusal.{rule_text};

    ghost output = { λ illegal. Some (rule_text illegal) };

    fn fmt<W: fmt::Write>(&self, f: &mut fmt::Formatter<W>) -> fmt::Result {
        f.write_str(self.rule())
    }
}

impl Illegal {
    ghost use Rattle.draughts_moves.specs.internal.Refusal.{rule_text};

    fn rule(self) -> &'static str
        ensures { result.now ≡ rule_text self }
    {
        match self {
            Illegal::NoSuchMove => "no piece of the side to move can move so",
            Illegal::MustCapture => "a piece must be taken",
            Illegal::NotLongest => "as many pieces as can be must be taken",
        }
    }
}

/// Checks whether a move is legal.
///
/// Allocates nothing.
///
/// # Errors
///
/// - `NoSuchMove`: no piece of the side to move can make the move.
/// - `MustCapture`: the move captures nothing, but a capture exists.
/// - `NotLongest`: another capture takes more pieces.
///
/// # Guarantees
///
/// `legal`: returns `Ok` for the legal moves and for no others. `must_capture` and `not_longest` say when these two
/// refusals are returned.
pub fn check(position: &DPos, played: &DMove) -> Result<(), Illegal>
    ensures legal { IsOk result ↔ Legal position.now played.now }

    // A quiet move where a capture exists.
    ensures must_capture { (result ≡ Err Illegal.MustCapture)
        ↔ (IsQuiet position.now played.now × HasCapture position.now) }

    // A capture that takes fewer pieces than another one, also one that stops halfway.
    ensures not_longest { (result ≡ Err Illegal.NotLongest)
        ↔ IsShortCapture position.now played.now }

    // The result as a function of the position and the move.
    ensures value { result ≡ check_of position.now played.now }
{
    if played.taken.is_empty() {
        return check_quiet(position, played);
    }
    check_capture(position, played)
}

// Checks a quiet move.
fn check_quiet(position: &DPos, played: &DMove) -> Result<(), Illegal>
    requires { played.now.taken ≡ set.empty }
    ensures { IsCheck position.now played.now result }
{
    if !is_step(position, played.from, played.to) {
        return Err(Illegal::NoSuchMove);
    }
    if most(position) > 0 {
        return Err(Illegal::MustCapture);
    }
    Ok(())
}

// Checks a capture.
fn check_capture(position: &DPos, played: &DMove) -> Result<(), Illegal>
    requires { played.now.taken ≢ set.empty }
    ensures { IsCheck position.now played.now result }
{
    if !is_capture(position, played) {
        return Err(Illegal::NoSuchMove);
    }
    if played.taken.len() < most(position) {
        return Err(Illegal::NotLongest);
    }
    Ok(())
}

// Whether the piece on `from` can make a quiet move to `to`.
#[tactic(auto, unfolding(crate::specs::internal::Search::is_step))]
fn is_step(position: &DPos, from: Dsq, to: Dsq) -> bool
    ensures { result ≡ is_step position.now from to }
{
    match own_at(position, from) {
        Some(piece) => steps_from(position, piece, from).contains(to),
        None => false,
    }
}

// Whether a capture route exists with the start, the end and the captured pieces of the move.
fn is_capture(position: &DPos, played: &DMove) -> bool
    requires { played.now.taken ≢ set.empty }
    ensures { IsTrue result ↔ IsCapture position.now played.now }
{
    let size = played.taken.len();
    match own_at(position, played.from) {
        Some(piece) => reaches(position, &Mover::new(piece, played.from), size, played),
        None => false,
    }
}

/// Whether the side to move has a legal move.
///
/// Allocates nothing.
pub fn has_move(position: &DPos) -> bool
    ensures legal { IsTrue result ↔ HasMove position.now }

    // The result as a function of the position.
    ensures value { result ≡ has_move position.now }
{
    for square in &Dsq::all() {
        if can_move(position, *square) {
            return true;
        }
    }
    false
}

// Whether the piece on a square belongs to the side to move and has a quiet move or a jump.
#[tactic(auto, unfolding(crate::specs::internal::Search::can_move))]
fn can_move(position: &DPos, square: Dsq) -> bool
    ensures { result ≡ can_move position.now square }
{
    match own_at(position, square) {
        Some(piece) => {
            if !steps_from(position, piece, square).is_empty() {
                return true;
            }
            can_jump(position, &Mover::new(piece, square))
        }
        None => false,
    }
}
