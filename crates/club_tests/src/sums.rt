//! Sums of scores at the limits of their range.

use crate::words::text_of;
use club_core::Pairing;
use club_rows::score_after;
use cross_tables::{OpponentScore, ScoreTotals, Standing, Standings, StandingsFault};
use squares::Score;
use std::test::Fail;
use store_tables::ScoreRow;

fn scored(opponent: u32, points: u32) -> OpponentScore {
    OpponentScore {
        member: 1,
        opponent,
        sums: ScoreTotals {
            points,
            wins: 0,
            draws: 1,
            losses: 0,
        },
    }
}

#[test]
fn a_sum_that_does_not_fit_is_refused(rt: HostRuntime) -> Result<(), Fail> {
    let most = scored(2, u32::MAX);
    let mut standings = Standings::new(rt.alloc());
    standings.add(&most)?;
    assert!(rt; standings.add(&scored(3, 1)) == Err(StandingsFault::TooMany));
    let kept = Standing {
        member: 1,
        sums: most.sums,
    };
    assert!(rt; standings.standing_at(0) == Some(kept));
    assert!(rt; standings.standing_at(1) == None);
    assert!(rt; most.sums.plus(most.sums) == None);
    let full = text_of(rt.alloc(), &StandingsFault::TooMany)?;
    assert!(rt; full.as_str() == "a sum of scores does not fit");
    Ok(())
}

#[test]
fn sums_that_do_not_fit_give_no_rows(rt: HostRuntime) {
    let full = ScoreRow {
        event: 1,
        member: 1,
        opponent: 2,
        points: i64::MAX,
        wins: 0,
        draws: 0,
        losses: 0,
    };
    let pairing = Pairing {
        event: 1,
        first: 1,
        second: 2,
    };
    assert!(rt; score_after(pairing, Some(Score::FirstWins), Some(&full), None) == None);
}
