//! Writes game records one move at a time, so that a record is never whole in memory.

ghost use Rattle.std.specs.Prelude.{◌≡◌, ◌⊎◌, ◌<◌, ℕ, suc, [], List, Option, Some, take, length, pos, IfOk};
ghost use Rattle.std.specs.Prelude.{IfSome, OnOk, is_ok};
ghost use Rattle.std.specs.Option.{option_map};
ghost use Rattle.club_core.specs.Events as core;
ghost use Rattle.club_core.specs.Game.{Game};
ghost use Rattle.club_core.specs.Legal.{IsLegalGame};
ghost use Rattle.club_exports.specs.Title.{Title, timed};
ghost use Rattle.club_exports.specs.internal.Title.{title_of};
ghost use Rattle.club_exports.specs.internal.Written.{BeginsRecord};
ghost use Rattle.club_exports.specs.internal.Exported.{IsWritten, IsUnderWay};
ghost use Rattle.club_reads.specs.internal.Rulings.{FindsVerdict};
ghost use Rattle.club_rows.specs.internal.Replay.{terms_given};
ghost use Rattle.club_rows.specs.internal.RowView.{row_at};
ghost use Rattle.sqlite.specs.State.{HasCleanDisk};
ghost use Rattle.sqlite.specs.Held.{state};
ghost use Rattle.store_tables.specs.Cells.{move_cells};
ghost use Rattle.store_tables.specs.internal.Over.{HasRows};
ghost use Rattle.store_tables.specs.Contents.{Content};
ghost use Rattle.store_tables.specs.Reading.{Reads};
ghost use Rattle.club_core.specs.State.{place};
ghost use Rattle.club_rows.specs.Club.{ClubGame, ClubState, IsClub, tables};
ghost use Rattle.club_answers.specs.Exported.{AreNamesOf};
ghost use Rattle.club_answers.specs.internal.Exported.{no_call_failed, IsTitleBy, AddsNamed, BeginsNamed};
ghost use Rattle.club_changes.specs.Steps.{IsRecordOf};
ghost use Rattle.club_changes.specs.internal.Steps.{FindsMoveRows, FindsSeenRows};
ghost use Rattle.club_changes.specs.internal.Stored.{IsStoredGame};

use clocks::Moment;
use club_changes::StoredGame;
use club_core::GameRow;
use club_exports::laws::written_entries_begin_games;
use club_exports::{Export, RecordHeader, WriteRecord};
use club_reads::{LookupFault, event_with, ids_in, name_of, row_of, view};
use club_rows::numbers::to_moment;
use record_writer::WriteFault;
use sqlite::{Alter, Connection};
use std::alloc::Global;
use std::io::Write;
use store_tables::MoveRow;

/// Why a record or an answer was not written completely.
#[derive(Debug, Clone, Copy, PartialEq, Eq, Drop)]
pub enum ViewFault {
    /// Reading the tables failed.
    Call(LookupFault),
    /// The writer failed.
    Output,
}

impl From<LookupFault> for ViewFault {
    ghost use Rattle.std.specs.Prelude.{◌≡◌};
    ghost use Rattle.club_answers.specs.declared.exported.ViewFault.TheVariants as stopped;

    ghost from_gives = { λ fault given. given ≡ stopped.Call fault };

    fn from(fault: LookupFault) -> ViewFault {
        ViewFault::Call(fault)
    }
}

impl From<WriteFault> for ViewFault {
    ghost use Rattle.std.specs.Prelude.{◌≡◌};
    ghost use Rattle.club_answers.specs.internal.Exported.{stopped_by};

    ghost from_gives = { λ fault given. given ≡ stopped_by fault };

    fn from(fault: WriteFault) -> ViewFault {
        match fault {
            WriteFault::Memory => ViewFault::Call(LookupFault::Memory),
            WriteFault::Writer(_) => ViewFault::Output,
        }
    }
}

/// The names of a game's event and of its players, for its record.
#[derive(Drop)]
pub struct RecordNames {
    pub event: String,
    /// The player with the first move.
    pub first: String,
    /// The other player.
    pub second: String,
}

fn moment_in(row: &MoveRow) -> Option<Moment>
    ensures { IfSome result (λ at. pos at ≡ row.now.moment) }
{
    to_moment(row.moment)
}

// Writes the entry of one move. Without a row of a legal move the database is not a club's.
fn write_row<R: WriteRecord, W: Write>(
    alloc: Global,
    row: Option<MoveRow>,
    export: &mut Export<R>,
    writer: &mut W,
) -> Result<(), ViewFault>
    requires { IsUnderWay R.rules R.HasWritten (W.contents writer.old) export.old }
    ensures in_progress { OnOk result (IsUnderWay R.rules R.HasWritten (W.contents writer.new) export.new) }
    ensures written { OnOk result ((terms : core.Terms) (id n : ℕ) (game : Game R.Move) (title : Title R.End)
        (before : Option (List ℕ)) → IsLegalGame R.rules terms game → n < length game.entries →
        option_map move_cells row ≡ row_at R.rules terms id game (suc n) →
        IsWritten R.rules R.HasWritten title (take n game.entries) before (W.contents writer.old) export.old →
        IsWritten R.rules R.HasWritten title (take (suc n) game.entries) before (W.contents writer.new) export.new) }
    ensures begun { (terms : core.Terms) (id n : ℕ) (game : Game R.Move) (title : Title R.End)
        (before : Option (List ℕ)) → IsLegalGame R.rules terms game → n < length game.entries →
        option_map move_cells row ≡ row_at R.rules terms id game (suc n) →
        IsWritten R.rules R.HasWritten title (take n game.entries) before (W.contents writer.old) export.old →
        BeginsRecord R.IsText title (timed title.start game.entries) before (W.contents writer.new) }
{
    written_entries_begin_games::<R>();
    let row = match row {
        Some(row) => row,
        None => return Err(ViewFault::Call(LookupFault::Store)),
    };
    let moment = match moment_in(&row) {
        Some(moment) => moment,
        None => return Err(ViewFault::Call(LookupFault::Store)),
    };
    if export.push(alloc, writer, row.text.as_str(), moment)? {
        Ok(())
    } else {
        Err(ViewFault::Call(LookupFault::Store))
    }
}

// Writes the moves of a stored game, one row at a time.
fn write_plies<R: WriteRecord, S: Alter, W: Write>(
    alloc: Global,
    conn: &mut Connection<S>,
    stored: &StoredGame,
    plies: u32,
    export: &mut Export<R>,
    writer: &mut W,
) -> Result<(), ViewFault>
    requires { IsUnderWay R.rules R.HasWritten (W.contents writer.old) export.old }
    ensures reads { Reads (no_call_failed result) (state S.Store conn.old) (state S.Store conn.new) }
    ensures written { HasCleanDisk (state S.Store conn.new) → OnOk result ((content : Content) (terms : core.Terms)
        (game : Game R.Move) (title : Title R.End) (before : Option (List ℕ)) →
        HasRows content (state S.Store conn.old) →
        FindsMoveRows R.rules terms stored.now.id game content → IsLegalGame R.rules terms game →
        plies ≡ length game.entries →
        IsWritten R.rules R.HasWritten title [] before (W.contents writer.old) export.old →
        IsWritten R.rules R.HasWritten title game.entries before (W.contents writer.new) export.new) }
    ensures begun { HasCleanDisk (state S.Store conn.new) → (content : Content) (terms : core.Terms)
        (game : Game R.Move) (title : Title R.End) (before : Option (List ℕ)) →
        HasRows content (state S.Store conn.old) →
        FindsMoveRows R.rules terms stored.now.id game content → IsLegalGame R.rules terms game →
        plies ≡ length game.entries →
        IsWritten R.rules R.HasWritten title [] before (W.contents writer.old) export.old →
        BeginsRecord R.IsText title (timed title.start game.entries) before (W.contents writer.new) }
{
    written_entries_begin_games::<R>();
    for ply in 0..plies {
        let row = row_of::<R, S>(alloc, conn, stored.id, ply + 1)?;
        write_row(alloc, row, export, writer)?;
    }
    Ok(())
}

// The header of a game's record.
fn heading_of<'a, E: Copy + Drop>(names: &'a RecordNames, row: &GameRow<E>) -> RecordHeader<'a, E>
    ensures { IsTitleBy names.now row.now (title_of result) }
{
    RecordHeader {
        event: names.event.as_str(),
        first: names.first.as_str(),
        second: names.second.as_str(),
        start: row.start,
        end: row.end,
        result: row.result,
    }
}

/// Writes the record of a stored game: first its header, then its moves one row at a time.
pub(crate) fn write_record<R: WriteRecord, S: Alter, W: Write>(
    alloc: Global,
    conn: &mut Connection<S>,
    stored: &StoredGame,
    names: &RecordNames,
    writer: &mut W,
) -> Result<(), ViewFault>
    ensures reads { Reads (no_call_failed result) (state S.Store conn.old) (state S.Store conn.new) }
    ensures written { HasCleanDisk (state S.Store conn.new) → OnOk result ((content : Content) (game : Game R.Move) →
        HasRows content (state S.Store conn.old) → FindsSeenRows R.rules stored.now.id game content →
        FindsMoveRows R.rules (terms_given stored.now.terms) stored.now.id game content →
        FindsVerdict stored.now.id game content (state S.Store conn.old) →
        IsRecordOf R.rules (terms_given stored.now.terms) stored.now.id stored.now.row game →
        AddsNamed R.rules R.IsText names.now game (W.contents writer.old) (W.contents writer.new)) }
    ensures begun { HasCleanDisk (state S.Store conn.new) → (content : Content) (game : Game R.Move) →
        HasRows content (state S.Store conn.old) → FindsSeenRows R.rules stored.now.id game content →
        FindsMoveRows R.rules (terms_given stored.now.terms) stored.now.id game content →
        FindsVerdict stored.now.id game content (state S.Store conn.old) →
        IsRecordOf R.rules (terms_given stored.now.terms) stored.now.id stored.now.row game →
        (writer.new ≡ writer.old) ⊎
        BeginsNamed R.rules R.IsText names.now game (W.contents writer.old) (W.contents writer.new) }
{
    let view = view::<R, S>(alloc, conn, stored)?;
    let heading = heading_of(names, &view.row);
    let mut export = Export::<R>::start(alloc, &heading, writer)?;
    match write_plies::<R, S, W>(alloc, conn, stored, view.row.plies, &mut export, writer) {
        Ok(()) => {}
        Err(stopped) => return Err(stopped),
    }
    if export.finish(writer)? {
        Ok(())
    } else {
        Err(ViewFault::Call(LookupFault::Store))
    }
}

/// The names of a stored game's event and of its players.
pub(crate) fn names_of<S: Alter>(
    alloc: Global,
    conn: &mut Connection<S>,
    stored: &StoredGame,
) -> Result<RecordNames, LookupFault>
    ensures reads { Reads (is_ok result) (state S.Store conn.old) (state S.Store conn.new) }
    ensures names { HasCleanDisk (state S.Store conn.new) → IfOk result (λ names. (s : ClubState) (id : ℕ)
        (game : ClubGame) → IsClub s → place s.games id ≡ Some game → IsStoredGame s id game stored.now →
        HasRows (tables s) (state S.Store conn.old) → AreNamesOf s game names) }
{
    let ids = ids_in(&stored.row)?;
    let pairing = ids.pairing;
    let event = event_with(alloc, conn, pairing.event)?;
    let first = name_of(alloc, conn, pairing.first)?;
    let second = name_of(alloc, conn, pairing.second)?;
    Ok(RecordNames {
        event: event.name,
        first,
        second,
    })
}
