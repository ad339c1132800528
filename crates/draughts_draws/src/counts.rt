//! The state of a game that is judged ply by ply.
ghost use Rattle.std.specs.Prelude.{◌≡◌, ◌≤◌, ◌+◌, [], IfOk, IfErr, OnOk, OnErr, unwrap_or};
ghost use Rattle.std.specs.HashMap.{get};
ghost use Rattle.squares.specs.DraughtsSamePosition.{same_position};

use crate::ends::DEnd;
use crate::faults::DLineFault;
use crate::tails::Tail;
use draughts_moves::{check, play};
use squares::{DMove, DPos};
use std::alloc::Global;
use std::collections::HashMap;

/// The state of a game after a sequence of moves.
///
/// The cost of a push does not grow with the number of plies.
#[derive(Drop)]
pub struct DrawCounts {
    last: DPos,
    plies: usize,
    /// The repetition count of the last position.
    times: u32,
    tail: Tail,
    /// The repetition count of each position.
    seen: HashMap<DPos, u32>,
    ghost within: { plies ≤ 600 },
    ghost few_king_plies: { tail.king_plies ≤ plies },
    ghost few_positions: { tail.class_positions ≤ plies + 1 },
}

impl DrawCounts {
    ghost use Rattle.game_history.specs.declared.faults.LineFault.TheVariants.{Memory};
    ghost use Rattle.game_history.specs.internal.Following.{GrowsBy, RefusesNext, StaysSo};
    ghost use Rattle.draughts_draws.specs.internal.Counting.{Follows, IsEndOf};
    ghost use Rattle.draughts_draws.specs.Faults.{draughts_lines};
    ghost use Rattle.draughts_draws.specs.Tails.{end_by};

    /// The state before the first move, from a starting position.
    ///
    /// # Errors
    ///
    /// `Memory` if out of memory.
    pub fn start(alloc: Global, position: &DPos) -> Result<DrawCounts, DLineFault>
        ensures follows { IfOk result (Follows position.now []) }
        ensures fault { IfErr result (λ fault. fault ≡ Memory) }
    {
        let mut seen = HashMap::new(alloc);
        seen.insert(*position, 1)?;
        Ok(DrawCounts {
            last: *position,
            plies: 0,
            times: 1,
            tail: Tail::start(position),
            seen,
        })
    }

    /// Appends a move.
    ///
    /// # Errors
    ///
    /// - `AfterEnd`: the game has already ended.
    /// - `Illegal`: the move is illegal.
    /// - `Memory`: out of memory.
    ///
    /// # Guarantees
    ///
    /// `fault`: apart from `Memory`, the fault is the one that `judge` returns for this ply. `kept`: after an error the
    /// state is unchanged.
    pub fn push(&mut self, played: &DMove) -> Result<(), DLineFault>
        ensures follows { OnOk result (GrowsBy Follows played.now self.old self.new) }
        ensures fault { IfErr result (RefusesNext Follows draughts_lines played.now self.old) }
        ensures kept { OnErr result (StaysSo Follows self.old self.new) }
    {
        match self.end_by_tail() {
            Some(_) => return Err(DLineFault::AfterEnd {
                ply: self.plies + 1,
            }),
            None => {}
        }
        match check(&self.last, played) {
            Ok(()) => {}
            Err(cause) => return Err(DLineFault::Illegal {
                ply: self.plies + 1,
                cause,
            }),
        }
        let next = play(&self.last, played);
        let times = self.times_of(&next).saturating_add(1);
        self.seen.insert(next, times)?;
        self.tail = self.tail.next(&self.last, played, &next);
        self.times = times;
        self.last = next;
        self.plies += 1;
        Ok(())
    }

    // The repetition count of a position so far.
    fn times_of(&self, position: &DPos) -> u32
        ensures { result ≡ unwrap_or (get same_position self.now.seen position.now) 0 }
    {
        self.seen.get(position).copied().unwrap_or(0)
    }

    // The end of the game according to the tail, if it has ended.
    fn end_by_tail(&self) -> Option<DEnd>
        ensures { result ≡ end_by self.now.tail self.now.last self.now.plies self.now.times }
    {
        self.tail.end(&self.last, self.plies, self.times as usize)
    }

    /// The end of the game, if the last ply ends it.
    pub fn end(&self) -> Option<DEnd>
        ensures { IsEndOf self.now result }
    {
        self.end_by_tail()
    }
}
