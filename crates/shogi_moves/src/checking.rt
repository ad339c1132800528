//! The check of a single move.
ghost use Rattle.std.specs.Prelude.{◌≡◌, ◌↔◌, true, IsTrue, IsOk, Err};
ghost use Rattle.shogi_moves.specs.internal.Layouts.{position_of};
ghost use Rattle.shogi_moves.specs.declared.checking.Illegal.{Illegal};
ghost use Rattle.shogi_moves.specs.Rules.{Legal, HasMove, FirstBroken};
ghost use Rattle.shogi_moves.specs.internal.Computed.{is_pseudo, is_legal, check_of, has_move};

use crate::layout::Layout;
use crate::mating::{leaves_king, mates_by_pawn};
use crate::move_visitor::{MoveVisitor, visit_moves};
use crate::pseudo::{drops_dead, drops_second_pawn, drops_unheld, fails_to_promote, is_movement};
use squares::{SMove, SPos};
use std::convert::Infallible;
use std::fmt;

/// Why a move is illegal.
#[derive(Clone, Copy, Debug, PartialEq, Eq)]
pub enum Illegal {
    /// No piece of the side to move can make this step, promote this way, or be dropped there.
    NoSuchMove,
    /// The hand holds no piece of this kind.
    NotInHand,
    /// Without promotion the piece could never move again.
    MustPromote,
    /// The dropped piece could never move.
    DeadDrop,
    /// A pawn is dropped on a file that already has an unpromoted pawn of the side (nifu).
    TwoPawns,
    /// The side's own king would be attacked after the move.
    KingAttacked,
    /// A dropped pawn would give mate (uchifuzume).
    DropMate,
}

impl fmt::Display for Illegal {
    ghost use Rattle.std.specs.Prelude.{Some};
    ghost use Rattle.shogi_moves.specs.internal.RuleTexts.{rule_text};

    ghost output = { λ illegal. Some (rule_text illegal) };

    fn fmt<W: fmt::Write>(&self, f: &mut fmt::Formatter<W>) -> fmt::Result {
        f.write_str(self.rule())
    }
}

impl Illegal {
    ghost use Rattle.std.specs.Prelude.{◌≡◌};
    ghost use Rattle.shogi_moves.specs.internal.RuleTexts.{rule_text};

    fn rule(self) -> &'static str
        ensures { result.now ≡ rule_text self }
    {
        match self {
            Illegal::NoSuchMove => "no piece of the side to move can move so",
            Illegal::NotInHand => "the hand has no such piece",
            Illegal::MustPromote => "the piece must promote",
            Illegal::DeadDrop => "the piece could never move",
            Illegal::TwoPawns => "the file has an own pawn",
            Illegal::KingAttacked => "the own king would be attacked",
            Illegal::DropMate => "a dropped pawn may not mate",
        }
    }
}

/// Checks whether a move is legal, and if not, finds the first rule that it breaks.
///
/// Allocates nothing.
///
/// # Errors
///
/// The first of these, in this order, that holds:
///
/// - `NoSuchMove`: no piece can make this step, promote this way, or be dropped there.
/// - `NotInHand`: the hand holds no piece of the dropped kind.
/// - `MustPromote`: without promotion the piece could never move again.
/// - `DeadDrop`: the dropped piece could never move.
/// - `TwoPawns`: the file already has an unpromoted pawn of the side.
/// - `KingAttacked`: the side's own king would be attacked.
/// - `DropMate`: the dropped pawn would give mate.
///
/// # Guarantees
///
/// `legal`: returns `Ok` for the legal moves and for no others. `refused`: the error is the first broken rule.
pub fn check(position: &SPos, played: &SMove) -> Result<(), Illegal>
    ensures legal { IsOk result ↔ Legal position.now played.now }
    ensures refused { (rule : Illegal)
        → (result ≡ Err rule) ↔ FirstBroken position.now played.now rule }
{
    check_layout(&Layout::from_position(position), played)
}

// Checks a move on a layout.
#[tactic(auto, unfolding(crate::specs::internal::Computed::check_of))]
fn check_layout(layout: &Layout, played: &SMove) -> Result<(), Illegal>
    ensures { result ≡ check_of (position_of layout.now) played.now }
{
    if !is_movement(layout, played) {
        return Err(Illegal::NoSuchMove);
    }
    if drops_unheld(layout, played) {
        return Err(Illegal::NotInHand);
    }
    if fails_to_promote(layout, played) {
        return Err(Illegal::MustPromote);
    }
    if drops_dead(layout, played) {
        return Err(Illegal::DeadDrop);
    }
    if drops_second_pawn(layout, played) {
        return Err(Illegal::TwoPawns);
    }
    if leaves_king(layout, played) {
        return Err(Illegal::KingAttacked);
    }
    if mates_by_pawn(layout, played) {
        return Err(Illegal::DropMate);
    }
    Ok(())
}

/// Whether a pseudo-legal move is legal: its own king is safe afterwards, and it is no mate by a dropped pawn.
pub fn is_legal(layout: &Layout, played: &SMove) -> bool
    requires { is_pseudo (position_of layout.now) played.now ≡ true }
    ensures { result ≡ is_legal (position_of layout.now) played.now }
{
    !leaves_king(layout, played) && !mates_by_pawn(layout, played)
}

// A seeker that stops at the first legal move.
#[derive(Drop)]
struct AnyLegal {
    found: bool,
}

impl MoveVisitor for AnyLegal {
    type Fault = Infallible;

    ghost use Rattle.std.specs.Prelude.{◌||◌};
    ghost use Rattle.shogi_moves.specs.internal.Computed as computed;
    ghost use Rattle.shogi_moves.specs.internal.Seeking.{is_any, is_legal-only, found_none, found_more};

    ghost test = { computed.is_legal };

    ghost plus = { λ sought moves. record { found = sought.found || is_any moves } };

    fn take(&mut self, layout: &Layout, played: SMove) -> Result<(), Infallible> {
        if is_legal(layout, &played) {
            self.found = true;
        }
        Ok(())
    }

    fn is_done(&self) -> bool {
        self.found
    }

    ghost only = { is_legal-only };

    ghost plus_none = { λ x i. record { found = found_none x.found i } };

    ghost plus_more = { λ x xs ys i. record { found = found_more x.found xs ys i } };
}

/// Whether the side to move has a legal move.
///
/// Allocates nothing.
pub fn has_move(position: &SPos) -> bool
    ensures { IsTrue result ↔ HasMove position.now }
{
    has_move_on(&Layout::from_position(position))
}

// Whether the side to move has a legal move on a layout.
fn has_move_on(layout: &Layout) -> bool
    ensures { result ≡ has_move (position_of layout.now) }
{
    let mut sought = AnyLegal { found: false };
    match visit_moves(layout, &mut sought) {
        Ok(()) => sought.found,
    }
}
