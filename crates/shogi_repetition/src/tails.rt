//! Counters that give the end of a game without looking at earlier plies.
ghost use Rattle.std.specs.Prelude.{◌≡◌, ◌<◌};
ghost use Rattle.shogi_repetition.specs.Ends.{is_in_check, end_by_checks};
ghost use Rattle.shogi_repetition.specs.Tails.{no_checks, count_on, next_tail, repetition_by, end_by};

use crate::ends::SEnd;
use crate::repeating::{can_move, end_by_checks, is_in_check};
use squares::{SPos, Side};

/// The counters that, with the last position, its occurrences and the number of plies, give the end of a game.
#[derive(Clone, Copy, Debug, PartialEq, Eq)]
pub struct Tail {
    /// The number of First's consecutive moves, up to the last one, that gave check.
    pub first_checks: u32,
    /// The number of Second's consecutive moves, up to the last one, that gave check.
    pub second_checks: u32,
}

/// The repetition count at which a game ends.
const STANDS: usize = 4;

/// The number of plies after which every game ends.
const PLY_LIMIT: usize = 600;

// The number of consecutive checks after one more move.
fn count_on(checks: u32, gives_check: bool) -> u32
    requires { checks < 4294967295 }
    ensures { result ≡ count_on checks gives_check }
{
    if gives_check {
        return checks + 1;
    }
    0
}

impl Tail {
    /// The tail before the first move.
    pub fn start() -> Tail
        ensures { result ≡ no_checks }
    {
        Tail {
            first_checks: 0,
            second_checks: 0,
        }
    }

    /// The tail after one more move, which leads to `after`.
    pub fn next(self, after: &SPos) -> Tail
        requires first_checks { self.first_checks < 4294967295 }
        requires second_checks { self.second_checks < 4294967295 }
        ensures { result ≡ next_tail self after.now }
    {
        match after.turn() {
            Side::First => Tail {
                first_checks: self.first_checks,
                second_checks: count_on(self.second_checks, is_in_check(after)),
            },
            Side::Second => Tail {
                first_checks: count_on(self.first_checks, is_in_check(after)),
                second_checks: self.second_checks,
            },
        }
    }

    // The end of a fourth repetition, `plies` plies after the first occurrence of the position.
    fn repetition(self, plies: usize) -> SEnd
        ensures { result ≡ repetition_by self plies }
    {
        end_by_checks(
            plies as u64 <= 2 * u64::from(self.first_checks),
            plies as u64 <= 2 * u64::from(self.second_checks),
        )
    }

    /// The end of a game with this tail, if it has ended.
    ///
    /// `position` is the last position, `plies` the number of plies, `times` the repetition count of the position, and
    /// `first` the ply after which it first occurred.
    #[tactic(auto, unfolding(crate::specs::Tails::end_by))]
    pub fn end(self, position: &SPos, plies: usize, times: usize, first: usize) -> Option<SEnd>
        ensures { result ≡ end_by self position.now plies times first }
    {
        if !can_move(position) {
            return Some(SEnd::NoMove);
        }
        if times >= STANDS {
            return Some(self.repetition(plies.saturating_sub(first)));
        }
        if plies == PLY_LIMIT {
            return Some(SEnd::PlyLimit);
        }
        None
    }
}
