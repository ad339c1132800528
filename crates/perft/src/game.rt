//! The trait of the games that `perft` supports.

ghost use Rattle.std.specs.Prelude.{◌≡◌, List, ℕ, IfOk, string_bytes};
ghost use Rattle.std.specs.declared.cmp.Ordering.{Ordering};
ghost use Rattle.perft.specs.internal.Lines.{AreTheMoves, IsTheCount};

use crate::fault::PerftFault;
use std::alloc::Global;

/// A game whose leaf nodes can be counted.
///
/// # Errors
///
/// A method that takes an allocator returns `PerftFault::Memory` if out of memory.
pub trait Game {
    type Position: Drop;

    type Move: Drop;

    ghost Legal: { Self.Position → Self.Move → Type 0 };

    ghost order: { Self.Move → Self.Move → Ordering };

    ghost after: { Self.Position → Self.Move → Self.Position };

    ghost Writes: { Self.Position → Self.Move → List ℕ → Type 0 };

    /// The legal moves, each once, in move order.
    fn legal(alloc: Global, position: &Self::Position) -> Result<Vec<Self::Move>, PerftFault>
        ensures { IfOk result (λ moves. AreTheMoves Legal order position.now moves.items) };

    /// The number of legal moves.
    fn count(alloc: Global, position: &Self::Position) -> Result<u64, PerftFault>
        ensures { IfOk result (λ count. IsTheCount Legal order position.now count) };

    /// The position after a legal move.
    fn play(position: &Self::Position, played: &Self::Move) -> Self::Position
        requires { Legal position.now played.now }
        ensures { result ≡ after position.now played.now };

    /// The text of a legal move.
    fn write_move(
        alloc: Global,
        position: &Self::Position,
        played: &Self::Move,
    ) -> Result<String, PerftFault>
        requires { Legal position.now played.now }
        ensures { IfOk result (λ text. Writes position.now played.now (string_bytes text)) };
}
