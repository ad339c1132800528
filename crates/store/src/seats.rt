//! Execution of the command that seats a game.

ghost use Rattle.std.specs.Prelude.{◌≡◌, ◌≤◌, ℕ, List, length, IfOk, is_ok, string_bytes};
ghost use Rattle.sqlite.specs.State.{HasCleanDisk};
ghost use Rattle.sqlite.specs.Held.{state};
ghost use Rattle.club_requests.specs.Outcome.{by_officer};
ghost use Rattle.club_core.specs.internal.Answer.{members_of, events_of, seating_of};
ghost use Rattle.club_core.specs.Seats.{seat_step};
ghost use Rattle.club_core.specs.State.{game_under};
ghost use Rattle.club_core.specs.State as club;
ghost use Rattle.store_tables.specs.internal.Over.{HasRows};
ghost use Rattle.store_tables.specs.Reading.{Reads};
ghost use Rattle.club_rows.specs.Club.{ClubState, IsClub, tables};
ghost use Rattle.club_changes.specs.internal.Steps.{caller_step, IsDecided};
ghost use Rattle.club_changes.specs.internal.Whole.{IsWhole};

use crate::decides::Decide;
use clocks::Moment;
use club_changes::{ChangeFault, CommandEffect, seated_rows, without_changes};
use club_core::{Event, Member, SeatDecision, StoredGames, seat};
use club_reads::{LookupFault, all_events, all_members, game_under};
use club_requests::{Answer, Caller, Outcome, Seat};
use sqlite::{Alter, Connection};
use std::alloc::Global;
use store_sql::count;
use store_tables::{GameTableRow, Version};

// The decision on a seating.
fn decided_seating<S: Alter>(
    alloc: Global,
    conn: &mut Connection<S>,
    members: &[Member],
    events: &[Event],
    caller: Caller,
    command: &Seat,
) -> Result<SeatDecision, LookupFault>
    requires members { length members.now ≤ 200 }
    requires events { length events.now ≤ 50 }
    ensures reads { Reads (is_ok result) (state S.Store conn.old) (state S.Store conn.new) }
    ensures decided { HasCleanDisk (state S.Store conn.new) → IfOk result (λ seating. (s : ClubState) → IsClub s →
        members_of members.now ≡ s.members → events_of events.now ≡ s.events →
        HasRows (tables s) (state S.Store conn.old) →
        seating_of seating ≡ by_officer caller (seat_step s.members s.events
        (game_under s.games (string_bytes command.now.key)) (length s.games) (string_bytes command.now.key)
        (string_bytes command.now.event) (string_bytes command.now.first) (string_bytes command.now.second))) }
{
    let under_key = game_under(alloc, conn, command.key.as_str())?;
    let Ok(games) = u32::try_from(count::<GameTableRow, S>(conn)?) else {
        return Err(LookupFault::Store);
    };
    let stored = StoredGames {
        under_key,
        count: games,
    };
    Ok(seat(members, events, stored, caller, command))
}

// The effect of a seating: a new game, a repeat of one with the same key, or a refusal.
fn put_seating(
    alloc: Global,
    events: &[Event],
    seating: SeatDecision,
    key: &str,
    moment: Moment,
) -> Result<CommandEffect, ChangeFault>
    ensures acts { IfOk result IsWhole }
    ensures step { IfOk result (λ d. (s : ClubState) (caller : Caller) (event first second : List ℕ) → IsClub s →
        events_of events.now ≡ s.events →
        seating_of seating ≡ by_officer caller (seat_step s.members s.events (game_under s.games key.now)
        (length s.games) key.now event first second) →
        IsDecided s (caller_step s moment caller (club.seat key.now event first second)) d) }
{
    match seating {
        SeatDecision::Starts(new) => {
            let changes = seated_rows(alloc, events, new, Some(key), moment)?;
            Ok(CommandEffect {
                outcome: Outcome::Accepted(Answer::Game(new.game)),
                changes: Some(changes),
            })
        }
        SeatDecision::Repeated(game) => Ok(without_changes(Outcome::Repeated(Answer::Game(game)))),
        SeatDecision::Refused(refusal) => Ok(without_changes(Outcome::Refused(refusal))),
    }
}

impl Decide for Seat {
    ghost command = { λ c. club.seat (string_bytes c.key) (string_bytes c.event) (string_bytes c.first)
        (string_bytes c.second) };

    fn decide<S: Alter>(
        &self,
        alloc: Global,
        version: Version,
        conn: &mut Connection<S>,
        caller: Caller,
        moment: Moment,
    ) -> Result<CommandEffect, LookupFault> {
        let members = all_members(alloc, version, conn)?;
        let events = all_events(alloc, version, conn)?;
        let seating = decided_seating(alloc, conn, &members, &events, caller, self)?;
        Ok(put_seating(alloc, &events, seating, self.key.as_str(), moment)?)
    }
}
