//! A visitor over the pseudo-legal moves of a position.
ghost use Rattle.std.specs.Prelude.{◌≡◌, ◌++◌, Bool, true, false, List, [], IsTrue, OnOk};
ghost use Rattle.std.specs.FinMap as map;
ghost use Rattle.squares.specs.declared.shogi.moves.SMove.{SMove};
ghost use Rattle.squares.specs.declared.shogi.moves.SMove.TheVariants.{Step, Drop};
ghost use Rattle.squares.specs.ShogiSets.{ShogiPosition};
ghost use Rattle.squares.specs.internal.ShogiWords.{is_side};
ghost use Rattle.shogi_moves.specs.internal.Layouts.{position_of};
ghost use Rattle.shogi_moves.specs.Rules.{may_land};
ghost use Rattle.shogi_moves.specs.internal.Computed.{is_pseudo};
ghost use Rattle.shogi_moves.specs.internal.Search.{piece_reaches};
ghost use Rattle.shogi_moves.specs.internal.Steps.{step_passes};
ghost use Rattle.shogi_moves.specs.internal.Listing.{if_passes, steps_between, steps_from, all_steps, drops_on};
ghost use Rattle.shogi_moves.specs.internal.Listing.{drops_of};
ghost use Rattle.shogi_moves.specs.internal.Listing.{all_drops, all_moves};

use crate::board_squares::all_squares;
use crate::layout::Layout;
use crate::pseudo::is_pseudo;
use crate::reaching::attacks_from;
use crate::zones::{is_stuck, may_land, may_promote};
use squares::{HandKind, SMove, SPiece, Ssq};

/// A visitor of moves: a test of each move, and an accumulated result of those that pass.
pub trait MoveVisitor {
    type Fault: Drop;

    ghost test: { ShogiPosition → SMove → Bool };

    ghost plus: { Self → List SMove → Self };

    /// Visits a pseudo-legal move.
    ///
    /// # Errors
    ///
    /// The visitor's own fault, which ends the walk.
    fn take(&mut self, layout: &Layout, played: SMove) -> Result<(), Self::Fault>
        requires { is_pseudo (position_of layout.now) played ≡ true }
        ensures { OnOk result (self.new ≡ plus self.old (if_passes (test (position_of layout.now)) played)) };

    /// Whether no further move can change the result.
    fn is_done(&self) -> bool
        ensures { IsTrue result → (moves : List SMove) → plus self.now moves ≡ self.now };

    ghost only: { (p : ShogiPosition) (m : SMove) → is_pseudo p m ≡ false → test p m ≡ false };

    ghost plus_none: { (x : Self) → plus x [] ≡ x };

    ghost plus_more: { (x : Self) (xs ys : List SMove) → plus x (xs ++ ys) ≡ plus (plus x xs) ys };
}

// Whether a promoting step may promote, or a step without promotion leaves the piece able to move again.
fn passes(piece: SPiece, from: Ssq, to: Ssq, promote: bool) -> bool
    ensures { result ≡ step_passes piece from to promote }
{
    if promote {
        may_promote(piece, from, to)
    } else {
        !is_stuck(piece.side, piece.role, to)
    }
}

// A piece and its square.
#[derive(Drop)]
struct PlacedPiece {
    piece: SPiece,
    from: Ssq,
}

// Visits a piece's step to a square that it attacks and may land on.
fn seek_step<S: MoveVisitor>(
    layout: &Layout,
    mover: &PlacedPiece,
    to: Ssq,
    promote: bool,
    seeker: &mut S,
) -> Result<(), S::Fault>
    requires stands { map.get layout.now.board mover.now.from ≡ Some mover.now.piece }
    requires own { mover.now.piece.side ≡ layout.now.turn }
    requires reaches { piece_reaches layout.now.board mover.now.piece mover.now.from to ≡ true }
    requires lands { may_land layout.now.turn (map.get layout.now.board to) ≡ true }
    ensures { OnOk result (seeker.new
        ≡ S.plus seeker.old (if_passes (S.test (position_of layout.now)) (Step mover.now.from to promote))) }
{
    let from = mover.from;
    if !passes(mover.piece, from, to, promote) {
        return Ok(());
    }
    seeker.take(layout, SMove::Step { from, to, promote })?;
    Ok(())
}

// Visits a piece's steps to a square that it attacks, without and with promotion.
fn seek_between<S: MoveVisitor>(
    layout: &Layout,
    mover: &PlacedPiece,
    to: Ssq,
    seeker: &mut S,
) -> Result<(), S::Fault>
    requires stands { map.get layout.now.board mover.now.from ≡ Some mover.now.piece }
    requires own { mover.now.piece.side ≡ layout.now.turn }
    requires reaches { piece_reaches layout.now.board mover.now.piece mover.now.from to ≡ true }
    ensures { OnOk result (seeker.new
        ≡ S.plus seeker.old (steps_between (S.test (position_of layout.now)) mover.now.from to)) }
{
    if !may_land(layout.turn, layout.board.piece_at(to)) {
        return Ok(());
    }
    seek_step(layout, mover, to, false, seeker)?;
    seek_step(layout, mover, to, true, seeker)?;
    Ok(())
}

// Visits the steps of a piece.
fn seek_steps_of<S: MoveVisitor>(
    layout: &Layout,
    mover: &PlacedPiece,
    seeker: &mut S,
) -> Result<(), S::Fault>
    requires stands { map.get layout.now.board mover.now.from ≡ Some mover.now.piece }
    requires own { mover.now.piece.side ≡ layout.now.turn }
    ensures { OnOk result (seeker.new
        ≡ S.plus seeker.old (steps_from (S.test (position_of layout.now)) mover.now.from)) }
{
    let mut rest = attacks_from(&layout.board, mover.piece, mover.from);
    while let Some(to) = rest.pop() {
        if seeker.is_done() {
            return Ok(());
        }
        seek_between(layout, mover, Ssq::of_number(to), seeker)?;
    }
    Ok(())
}

// Visits the steps from a square that holds a piece of the side to move.
fn seek_steps_from<S: MoveVisitor>(
    layout: &Layout,
    from: Ssq,
    seeker: &mut S,
) -> Result<(), S::Fault>
    requires { is_side layout.now.turn (map.get layout.now.board from) ≡ true }
    ensures { OnOk result (seeker.new
        ≡ S.plus seeker.old (steps_from (S.test (position_of layout.now)) from)) }
{
    match layout.board.piece_at(from) {
        None => Ok(()),
        Some(piece) => {
            seek_steps_of(layout, &PlacedPiece { piece, from }, seeker)?;
            Ok(())
        }
    }
}

// Visits all steps.
fn seek_steps<S: MoveVisitor>(layout: &Layout, seeker: &mut S) -> Result<(), S::Fault>
    ensures { OnOk result (seeker.new
        ≡ S.plus seeker.old (all_steps (S.test (position_of layout.now)))) }
{
    let mut rest = layout.board.squares_of_side(layout.turn);
    while let Some(from) = rest.pop() {
        if seeker.is_done() {
            return Ok(());
        }
        seek_steps_from(layout, Ssq::of_number(from), seeker)?;
    }
    Ok(())
}

// Visits the drop of a kind on a square.
fn seek_drop_on<S: MoveVisitor>(
    layout: &Layout,
    kind: HandKind,
    to: Ssq,
    seeker: &mut S,
) -> Result<(), S::Fault>
    ensures { OnOk result (seeker.new
        ≡ S.plus seeker.old (drops_on (S.test (position_of layout.now)) kind to)) }
{
    let played = SMove::Drop { kind, to };
    if !is_pseudo(layout, &played) {
        return Ok(());
    }
    seeker.take(layout, played)?;
    Ok(())
}

// Visits the drops of a kind.
fn seek_drops_of<S: MoveVisitor>(
    layout: &Layout,
    kind: HandKind,
    seeker: &mut S,
) -> Result<(), S::Fault>
    ensures { OnOk result (seeker.new
        ≡ S.plus seeker.old (drops_of (S.test (position_of layout.now)) kind)) }
{
    if layout.count_in_hand(kind) == 0 {
        return Ok(());
    }
    for to in &all_squares() {
        if seeker.is_done() {
            return Ok(());
        }
        seek_drop_on(layout, kind, *to, seeker)?;
    }
    Ok(())
}

// Visits all drops.
fn seek_drops<S: MoveVisitor>(layout: &Layout, seeker: &mut S) -> Result<(), S::Fault>
    ensures { OnOk result (seeker.new
        ≡ S.plus seeker.old (all_drops (S.test (position_of layout.now)))) }
{
    for kind in &HandKind::ALL {
        seek_drops_of(layout, *kind, seeker)?;
    }
    Ok(())
}

/// Visits each pseudo-legal move, in the order of the move list, until the seeker is done.
///
/// # Errors
///
/// The first fault that the seeker returns.
pub fn visit_moves<S: MoveVisitor>(layout: &Layout, seeker: &mut S) -> Result<(), S::Fault>
    ensures { OnOk result (seeker.new
        ≡ S.plus seeker.old (all_moves (S.test (position_of layout.now)))) }
{
    seek_steps(layout, seeker)?;
    seek_drops(layout, seeker)?;
    Ok(())
}
