//! Execution of the sweep, which ends overdue games.

ghost use Rattle.std.specs.Prelude.{IfOk, is_ok};
ghost use Rattle.sqlite.specs.State.{HasCleanDisk};
ghost use Rattle.sqlite.specs.Held.{state};
ghost use Rattle.club_core.specs.State.{sweep};
ghost use Rattle.club_requests.specs.declared.requests.Caller.TheVariants.{Officer};
ghost use Rattle.club_rows.specs.Club.{ClubState, IsClub, tables};
ghost use Rattle.store_tables.specs.internal.Over.{HasRows};
ghost use Rattle.store_tables.specs.Reading.{Reads};
ghost use Rattle.club_changes.specs.internal.Steps.{caller_step, IsDecided};
ghost use Rattle.club_changes.specs.internal.Whole.{IsWhole};

use crate::decides::Decide;
use clocks::Moment;
use club_changes::{CommandEffect, sweep_games, without_changes};
use club_reads::LookupFault;
use club_requests::{Caller, Outcome, Refusal};
use sqlite::{Alter, Connection};
use std::alloc::Global;
use store_sql::list;
use store_tables::{GameTableRow, ScoreRow, Version};

// Executes a sweep for the officer.
fn swept<S: Alter>(
    alloc: Global,
    conn: &mut Connection<S>,
    moment: Moment,
) -> Result<CommandEffect, LookupFault>
    ensures reads { Reads (is_ok result) (state S.Store conn.old) (state S.Store conn.new) }
    ensures acts { IfOk result IsWhole }
    ensures step { HasCleanDisk (state S.Store conn.new) → IfOk result (λ d. (s : ClubState) → IsClub s →
        HasRows (tables s) (state S.Store conn.old) → IsDecided s (caller_step s moment Officer sweep) d) }
{
    let games = list::<GameTableRow, S>(alloc, conn)?;
    let scores = list::<ScoreRow, S>(alloc, conn)?;
    let decided = sweep_games(alloc, &games, &scores, moment)?;
    Ok(decided)
}

/// The officer's command to end every running game whose side to move has used more seconds than it had left.
#[derive(Drop)]
pub(crate) struct Sweep;

impl Decide for Sweep {
    ghost command = { λ c. sweep };

    fn decide<S: Alter>(
        &self,
        alloc: Global,
        _version: Version,
        conn: &mut Connection<S>,
        caller: Caller,
        moment: Moment,
    ) -> Result<CommandEffect, LookupFault> {
        match caller {
            Caller::Officer => swept(alloc, conn, moment),
            Caller::Member(_) => Ok(without_changes(Outcome::Refused(Refusal::NotAllowed))),
        }
    }
}
