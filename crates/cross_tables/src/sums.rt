//! Points, wins, draws and losses.

ghost use Rattle.std.specs.Prelude.{◌≡◌, IfSome, None};
ghost use Rattle.cross_tables.specs.Totals.{games};
ghost use Rattle.cross_tables.specs.internal.Totals.{Fit, plus_sums};

/// The points, wins, draws and losses of finished games.
#[derive(Clone, Copy, Debug, PartialEq, Eq)]
pub struct ScoreTotals {
    pub points: u32,
    pub wins: u32,
    pub draws: u32,
    pub losses: u32,
}

/// A score row: the totals of a member against one opponent in an event.
#[derive(Clone, Copy, Debug, PartialEq, Eq)]
pub struct OpponentScore {
    pub member: u32,
    pub opponent: u32,
    pub sums: ScoreTotals,
}

impl ScoreTotals {
    /// The sum of both, or `None` if one of the numbers overflows.
    pub fn plus(self, more: ScoreTotals) -> Option<ScoreTotals>
        ensures some { IfSome result (λ sums. sums ≡ plus_sums self more) }
        ensures none { result ≡ None → ¬ Fit (plus_sums self more) }
    {
        let points = self.points.checked_add(more.points)?;
        let wins = self.wins.checked_add(more.wins)?;
        let draws = self.draws.checked_add(more.draws)?;
        let losses = self.losses.checked_add(more.losses)?;
        Some(ScoreTotals {
            points,
            wins,
            draws,
            losses,
        })
    }

    /// The number of games.
    pub fn games(self) -> u64
        ensures { result ≡ games self }
    {
        u64::from(self.wins) + u64::from(self.draws) + u64::from(self.losses)
    }
}
