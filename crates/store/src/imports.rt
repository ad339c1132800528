//! Execution of the import of a game record.

ghost use Rattle.std.specs.Prelude.{◌≢◌, ◌≤◌, length, Option, Some, IfOk, is_ok};
ghost use Rattle.std.specs.Prelude.{string_bytes};
ghost use Rattle.sqlite.specs.State.{HasCleanDisk};
ghost use Rattle.sqlite.specs.Held.{state};
ghost use Rattle.club_rules.specs.Records.{IsGameByRules};
ghost use Rattle.club_rules.specs.internal.Records.{recorded_of};
ghost use Rattle.club_core.specs.Answer.{import_of};
ghost use Rattle.club_core.specs.internal.Answer.{events_of};
ghost use Rattle.club_core.specs.Game.{Game};
ghost use Rattle.club_core.specs.Imports.{imported};
ghost use Rattle.club_core.specs.State.{import_record, place, terms_at};
ghost use Rattle.club_rows.specs.Club.{tables};
ghost use Rattle.store_tables.specs.internal.Over.{HasRows};
ghost use Rattle.store_tables.specs.Contents.{Content};
ghost use Rattle.store_tables.specs.Reading.{Reads};
ghost use Rattle.store_tables.specs.Names.{tree_of};
ghost use Rattle.store_tables.specs.declared.names.Table.TheVariants.{Scores};
ghost use Rattle.club_changes.specs.internal.Importing.{IsOfKind, IsImportedIn, PutsNewGame, imported_by};
ghost use Rattle.club_changes.specs.internal.Whole.{IsWhole};
ghost use Rattle.club_reads.specs.internal.Rulings.{FindsVerdictUnder};

use crate::decides::Decide;
use clocks::Moment;
use club_changes::{
    CommandEffect, ImportContext, event_at, event_kind, new_rows, put_rows, terms_of,
    without_changes,
};
use club_core::{Event, StoredGames};
use club_games::by_kind;
use club_imports::{ComparedGames, ImportDecision, NewGame, import};
use club_reads::{LookupFault, played_under, read_known, score_rows_after};
use club_requests::values::{is_budget, is_increment};
use club_requests::{Answer, Caller, Import, Outcome};
use club_rules::{GameKind, Records, Rules};
use sqlite::{Alter, Connection};
use std::alloc::Global;
use store_tables::{Changes, Version};

// The rows of an imported game, with those of its players' scores.
fn added<R: Rules, S: Alter>(
    alloc: Global,
    conn: &mut Connection<S>,
    events: &[Event],
    new: &NewGame<R::Move>,
    key: &str,
    moment: Moment,
) -> Result<Changes, LookupFault>
    requires { IsGameByRules R.rules (recorded_of new.now.recorded) }
    ensures reads { Reads (is_ok result) (state S.Store conn.old) (state S.Store conn.new) }
    ensures puts { HasCleanDisk (state S.Store conn.new) → IfOk result (λ changes. (content : Content) →
        HasRows content (state S.Store conn.old) → new.now.pairing.first ≢ new.now.pairing.second →
        PutsNewGame R.rules (terms_at (place (events_of events.now) new.now.pairing.event)) new.now.game moment
        (content (tree_of Scores))
        (imported R.rules (Some key.now) new.now.pairing moment (recorded_of new.now.recorded)) changes) }
{
    let event = event_at(events, new.pairing.event)?;
    let terms = terms_of(event);
    if !is_budget(terms.budget) {
        return Err(LookupFault::Store);
    }
    if !is_increment(terms.increment) {
        return Err(LookupFault::Store);
    }
    let rows = new_rows::<R>(alloc, key, terms, moment, new)?;
    let pairing = new.pairing;
    let score = Some(new.recorded.score);
    let scores = score_rows_after(
        alloc,
        conn,
        pairing.event,
        pairing.first,
        pairing.second,
        score,
    )?;
    Ok(put_rows(alloc, rows, scores, moment)?)
}

// Executes an import into an event with games of this kind.
fn import_as<R: Records, S: Alter>(
    alloc: Global,
    conn: &mut Connection<S>,
    known: &ImportContext,
    kind: GameKind,
    caller: Caller,
    command: &Import,
    moment: Moment,
) -> Result<CommandEffect, LookupFault>
    requires members { length known.now.members.items ≤ 200 }
    requires events { length known.now.events.items ≤ 50 }
    ensures reads { Reads (is_ok result) (state S.Store conn.old) (state S.Store conn.new) }
    ensures acts { IfOk result IsWhole }
    ensures step { HasCleanDisk (state S.Store conn.new) → IfOk result (λ d. (content : Content)
        (old : Option (Game R.Move)) → HasRows content (state S.Store conn.old) →
        IsOfKind R.rules kind content old known.now.under →
        FindsVerdictUnder old known.now.under content (state S.Store conn.old) →
        IsImportedIn R.rules (events_of known.now.events.items) (string_bytes command.now.key) known.now.games moment
        (content (tree_of Scores)) (imported_by R.rules R.records known.now caller (import_of command.now) old) d) }
{
    let played = played_under::<R, S>(alloc, conn, kind, &known.under)?;
    let members = known.members.as_slice();
    let events = known.events.as_slice();
    let compared = ComparedGames {
        stored: StoredGames {
            under_key: known.keyed,
            count: known.games,
        },
        played,
    };
    match import::<R>(alloc, members, events, &compared, caller, command)? {
        ImportDecision::Adds(new) => {
            let changes = added::<R, S>(alloc, conn, events, &new, command.key.as_str(), moment)?;
            Ok(CommandEffect {
                outcome: Outcome::Accepted(Answer::Game(new.game)),
                changes: Some(changes),
            })
        }
        ImportDecision::Repeated(game) => Ok(without_changes(Outcome::Repeated(Answer::Game(
            game,
        )))),
        ImportDecision::Refused(refusal) => Ok(without_changes(Outcome::Refused(refusal))),
    }
}

impl Decide for Import {
    ghost command = { λ c. import_record (import_of c) };

    fn decide<S: Alter>(
        &self,
        alloc: Global,
        version: Version,
        conn: &mut Connection<S>,
        caller: Caller,
        moment: Moment,
    ) -> Result<CommandEffect, LookupFault> {
        let known = read_known(alloc, version, conn, self.key.as_str())?;
        let kind = event_kind(known.events.as_slice(), self.event.as_str());
        by_kind!(
            kind,
            import_as::<_, S>(alloc, conn, &known, kind, caller, self, moment)
        )
    }
}
