//! The state of a game that is judged ply by ply.
ghost use Rattle.std.specs.Prelude.{◌≡◌, ◌≤◌, ◌+◌, [], IfOk, IfErr, OnOk, OnErr};
ghost use Rattle.std.specs.BTreeMap.{get};
ghost use Rattle.squares.specs.internal.ShogiOrder.{position_cmp};

use crate::ends::SEnd;
use crate::faults::SLineFault;
use crate::tails::Tail;
use shogi_moves::{check, play};
use squares::{SMove, SPos};
use std::alloc::Global;
use std::collections::BTreeMap;

/// The repetition count of a position, and the ply after which it first occurred.
#[derive(Clone, Copy, Debug, PartialEq, Eq, Drop)]
pub struct RepetitionCount {
    pub times: u32,
    pub first: usize,
}

/// The state of a game after a sequence of moves.
///
/// A push looks at no earlier ply.
#[derive(Drop)]
pub struct Marks {
    last: SPos,
    plies: usize,
    /// The occurrences of the last position.
    stood: RepetitionCount,
    tail: Tail,
    /// The occurrences of each position.
    seen: BTreeMap<SPos, RepetitionCount>,
    ghost within: { plies ≤ 600 },
    ghost few_first_checks: { tail.first_checks ≤ plies },
    ghost few_second_checks: { tail.second_checks ≤ plies },
}

impl Marks {
    ghost use Rattle.game_history.specs.declared.faults.LineFault.TheVariants.{Memory};
    ghost use Rattle.game_history.specs.internal.Following.{GrowsBy, RefusesNext, StaysSo};
    ghost use Rattle.shogi_repetition.specs.internal.Counting.{Follows, IsEndOf, stood_again};
    ghost use Rattle.shogi_repetition.specs.Faults.{shogi_lines};
    ghost use Rattle.shogi_repetition.specs.Tails.{end_by};

    /// The state before the first move, from a starting position.
    ///
    /// # Errors
    ///
    /// `Memory` if out of memory.
    pub fn start(alloc: Global, position: &SPos) -> Result<Marks, SLineFault>
        ensures follows { IfOk result (Follows position.now []) }
        ensures fault { IfErr result (λ fault. fault ≡ Memory) }
    {
        let stood = RepetitionCount { times: 1, first: 0 };
        let mut seen = BTreeMap::new(alloc);
        seen.insert(position.copy(), stood)?;
        Ok(Marks {
            last: position.copy(),
            plies: 0,
            stood,
            tail: Tail::start(),
            seen,
        })
    }

    /// Appends a move.
    ///
    /// # Errors
    ///
    /// - `AfterEnd`: the game has already ended.
    /// - `Illegal`: the move is illegal.
    /// - `Memory`: out of memory.
    ///
    /// # Guarantees
    ///
    /// `fault`: apart from `Memory`, the fault is the one that `judge` returns for this ply. `kept`: after an error the
    /// state is unchanged.
    pub fn push(&mut self, played: &SMove) -> Result<(), SLineFault>
        ensures follows { OnOk result (GrowsBy Follows played.now self.old self.new) }
        ensures fault { IfErr result (RefusesNext Follows shogi_lines played.now self.old) }
        ensures kept { OnErr result (StaysSo Follows self.old self.new) }
    {
        match self.end_by_tail() {
            Some(_) => return Err(SLineFault::AfterEnd {
                ply: self.plies + 1,
            }),
            None => {}
        }
        match check(&self.last, played) {
            Ok(()) => {}
            Err(cause) => return Err(SLineFault::Illegal {
                ply: self.plies + 1,
                cause,
            }),
        }
        let next = play(&self.last, played);
        let stood = self.stood_again(&next);
        self.seen.insert(next.copy(), stood)?;
        self.tail = self.tail.next(&next);
        self.stood = stood;
        self.last = next;
        self.plies += 1;
        Ok(())
    }

    // The occurrences of a position, counting one more after the next ply.
    fn stood_again(&self, position: &SPos) -> RepetitionCount
        ensures { result ≡ stood_again (self.now.plies + 1) (get position_cmp self.now.seen position.now) }
    {
        match self.seen.get(position).copied() {
            Some(stood) => RepetitionCount {
                times: stood.times.saturating_add(1),
                first: stood.first,
            },
            None => RepetitionCount {
                times: 1,
                first: self.plies + 1,
            },
        }
    }

    // The end of the game according to the tail, if it has ended.
    fn end_by_tail(&self) -> Option<SEnd>
        ensures { result ≡ end_by self.now.tail self.now.last self.now.plies self.now.stood.times self.now.stood.first }
    {
        self.tail.end(
            &self.last,
            self.plies,
            self.stood.times as usize,
            self.stood.first,
        )
    }

    /// The end of the game, if the last ply ends it.
    pub fn end(&self) -> Option<SEnd>
        ensures { IsEndOf self.now result }
    {
        self.end_by_tail()
    }
}
