//! The members of an event with their totals, in the order of places.

ghost use Rattle.std.specs.Prelude.{◌≡◌, ◌≢◌, ◌==◌, ◌<◌, ◌++◌, ◌∷◌, [], ℕ, List};
ghost use Rattle.std.specs.Prelude.{Err, IfOk, OnOk, OnErr, length, slice_get, slice_index_or, slice_set};
ghost use Rattle.std.specs.List.{position};
ghost use Rattle.std.specs.List.Sorted.{IsPermutation};
ghost use Rattle.std.specs.Ordering.{is_lt};
ghost use Rattle.cross_tables.specs.declared.standings.Standing.{Standing};
ghost use Rattle.cross_tables.specs.declared.standings.StandingsFault.TheVariants as fault;
ghost use Rattle.cross_tables.specs.declared.sums.OpponentScore.{OpponentScore};
ghost use Rattle.cross_tables.specs.Totals.{AreTotals, totals};
ghost use Rattle.cross_tables.specs.internal.Totals.{Fit, plus_sums, raised};
ghost use Rattle.cross_tables.specs.Places.{AreRanked, precedes};

use crate::sums::{OpponentScore, ScoreTotals};
use memory::Memory;
use std::alloc::{AllocFailed, Global};
use std::cmp::Ordering;
use std::error::Error;
use std::fmt;
use std::marker::Model;

/// A member and its totals in the event.
#[derive(Clone, Copy, Debug, PartialEq, Eq)]
pub struct Standing {
    pub member: u32,
    pub sums: ScoreTotals,
}

/// Why a score row was not added.
#[derive(Clone, Copy, Debug, PartialEq, Eq)]
pub enum StandingsFault {
    /// An allocation failed.
    Memory,
    /// A sum of the member does not fit in a `u32`.
    TooMany,
}

impl fmt::Display for StandingsFault {
    ghost use Rattle.std.specs.Prelude.{Some};
    ghost use Rattle.cross_tables.specs.internal.Faults.{fault_text};

    ghost output = { λ fault. Some (fault_text fault) };

    fn fmt<W: fmt::Write>(&self, f: &mut fmt::Formatter<W>) -> fmt::Result {
        match self {
            StandingsFault::Memory => f.write_str("out of memory"),
            StandingsFault::TooMany => f.write_str("a sum of scores does not fit"),
        }
    }
}

impl Error for StandingsFault {}

impl<T: Drop> From<AllocFailed<T>> for StandingsFault {
    ghost use Rattle.std.specs.Prelude.{◌≡◌};
    ghost use Rattle.cross_tables.specs.declared.standings.StandingsFault.TheVariants as fault;

    ghost from_gives = { λ _ e. e ≡ fault.Memory };

    fn from(_refused: AllocFailed<T>) -> StandingsFault {
        StandingsFault::Memory
    }
}

/// The members that have a score row, each with its totals.
#[derive(Debug, Drop)]
pub struct Standings {
    standings: Vec<Standing>,
}

impl Model for Standings {
    ghost use Rattle.std.specs.Prelude.{List};
    ghost use Rattle.cross_tables.specs.declared.standings.Standing.{Standing};

    ghost Value = { List Standing };

    ghost view = { λ s. s.standings.items };
}

// The order of places: more points, then more wins, then the lower member number.
fn order(one: &Standing, other: &Standing) -> Ordering
    ensures { is_lt result ≡ precedes one.now other.now }
{
    let by_points = other.sums.points.cmp(&one.sums.points);
    let by_wins = other.sums.wins.cmp(&one.sums.wins);
    by_points.then(by_wins).then(one.member.cmp(&other.member))
}

impl Standings {
    /// The standings without any member.
    pub fn new(alloc: Global) -> Standings
        ensures empty { result ≡ [] }
        ensures totals { AreTotals result [] }
    {
        Standings {
            standings: Vec::new(alloc),
        }
    }

    /// The totals of all members in the score rows, in the order of places.
    ///
    /// # Errors
    ///
    /// - `Memory`: out of memory.
    /// - `TooMany`: a sum of some member does not fit in a `u32`.
    ///
    /// # Guarantees
    ///
    /// `ranked` and `only`: the result is the one list of these totals in the order of places.
    pub fn of_rows(alloc: Global, rows: &[OpponentScore]) -> Result<Standings, StandingsFault>
        ensures totals { IfOk result (λ standings. AreTotals standings rows.now) }
        ensures ranked { IfOk result AreRanked }
        // Each standing has its member's totals.
        ensures each { IfOk result (λ standings. (place : ℕ) (d : Standing) → place < length standings →
            (slice_index_or standings place d).sums
            ≡ totals (slice_index_or standings place d).member rows.now) }
        // No other list has these totals in the order of places.
        ensures only { IfOk result (λ standings. (others : List Standing) → AreTotals others rows.now →
            AreRanked others → others ≡ standings) }
        ensures too_many { result ≡ Err fault.TooMany → (member : ℕ) × ¬ Fit (totals member rows.now) }
    {
        let mut standings = Standings::new(alloc);
        for row in rows {
            standings.add(row)?;
        }
        standings.rank();
        Ok(standings)
    }

    /// The standings in their present order.
    pub fn as_slice(&self) -> &[Standing]
        ensures { result.now ≡ self.now }
    {
        self.standings.as_slice()
    }

    /// The standing at an index, from 0.
    pub fn standing_at(&self, place: usize) -> Option<Standing>
        ensures { result ≡ slice_get self.now place }
    {
        self.standings.get(place).copied()
    }

    /// The index of a member's standing, from 0.
    pub fn place_of(&self, member: u32) -> Option<usize>
        ensures { result ≡ position (λ s. s.member == member) self.now }
    {
        self.standings.iter().position(|s| s.member == member)
    }

    // Adds sums to the standing at an index.
    fn raise(&mut self, place: usize, more: ScoreTotals) -> Result<(), StandingsFault>
        requires { place < length self.old }
        ensures ok { OnOk result ((d : Standing) →
            self.new ≡ slice_set self.old place (raised (slice_index_or self.old place d) more)) }
        ensures err { OnErr result (self.new ≡ self.old) }
        ensures fault { OnErr result ((d : Standing) →
            ¬ Fit (plus_sums (slice_index_or self.old place d).sums more)) }
    {
        let standing = self.standings[place];
        let Some(sums) = standing.sums.plus(more) else {
            return Err(StandingsFault::TooMany);
        };
        self.standings[place] = Standing {
            member: standing.member,
            sums,
        };
        Ok(())
    }

    // Appends a member.
    fn enter(&mut self, member: u32, sums: ScoreTotals) -> Result<(), StandingsFault>
        ensures ok { OnOk result (self.new ≡ self.old ++ record { member = member; sums = sums } ∷ []) }
        ensures err { OnErr result (self.new ≡ self.old) }
        ensures fault { result ≢ Err fault.TooMany }
    {
        self.standings.push(Standing { member, sums })?;
        Ok(())
    }

    /// Adds a score row to the totals of its member.
    ///
    /// # Errors
    ///
    /// - `Memory`: out of memory.
    /// - `TooMany`: a sum does not fit in a `u32`.
    ///
    /// # Guarantees
    ///
    /// `kept`: after an error the standings are unchanged.
    pub fn add(&mut self, scored: &OpponentScore) -> Result<(), StandingsFault>
        ensures adds { OnOk result ((rows : List OpponentScore) → AreTotals self.old rows →
            AreTotals self.new (rows ++ scored.now ∷ [])) }
        ensures kept { OnErr result (self.new ≡ self.old) }
        ensures too_many { result ≡ Err fault.TooMany → (rows : List OpponentScore) → AreTotals self.old rows →
            ¬ Fit (totals scored.now.member (rows ++ scored.now ∷ [])) }
    {
        match self.place_of(scored.member) {
            Some(place) => self.raise(place, scored.sums),
            None => self.enter(scored.member, scored.sums),
        }
    }

    /// Sorts the standings by place.
    pub fn rank(&mut self)
        ensures same { IsPermutation self.old self.new }
        ensures totals { (rows : List OpponentScore) → AreTotals self.old rows → AreTotals self.new rows }
        ensures ranked { AreRanked self.new }
    {
        self.standings
            .sort_unstable_by(|one, other| order(one, other));
    }
}
