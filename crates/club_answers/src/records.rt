//! Writes the records of an event one after another.

ghost use Rattle.std.specs.Prelude.{◌≡◌, IfOk, OnOk};
ghost use Rattle.std.specs.Io.KnownBytes.{Appends};
ghost use Rattle.record_writer.specs.Pieces.{AppendsSome};
ghost use Rattle.sqlite.specs.State.{HasCleanDisk};
ghost use Rattle.sqlite.specs.Held.{state};
ghost use Rattle.store_tables.specs.Reading.{Reads};
ghost use Rattle.club_rows.specs.Club.{ClubState, IsClub, StoresClub};
ghost use Rattle.club_answers.specs.internal.Exported.{no_call_failed};
ghost use Rattle.club_answers.specs.EventRecords.{opening, BeginsRecords};
ghost use Rattle.club_answers.specs.internal.Writing.{AddsRecord, BeginsRecord, HasRecords};

use crate::{ViewFault, export_game};
use club_reads::LookupFault;
use club_requests::Refusal;
use club_rules::GameKind;
use record_writer::write_piece;
use sqlite::{Alter, Connection};
use std::alloc::Global;
use std::io::Write;

// The separator in front of a record: a blank line in PDN, the line `/` in CSA.
fn opening(is_first: bool, kind: GameKind) -> &'static str
    ensures { result.now ≡ opening is_first kind }
{
    if is_first {
        return "";
    }
    match kind {
        GameKind::Draughts => "\n",
        GameKind::Shogi => "/\n",
    }
}

// Writes the separator.
fn write_front<W: Write>(front: &str, writer: &mut W) -> Result<(), ViewFault>
    ensures written { OnOk result (Appends (W.contents writer.old) (W.contents writer.new) front.now) }
    ensures begun { AppendsSome (W.contents writer.old) (W.contents writer.new) front.now }
{
    match write_piece(writer, front.as_bytes()) {
        Ok(()) => Ok(()),
        Err(_) => Err(ViewFault::Output),
    }
}

// Writes a separator and the record of a game.
fn write_record_after<S: Alter, W: Write>(
    alloc: Global,
    conn: &mut Connection<S>,
    front: &str,
    id: u32,
    writer: &mut W,
) -> Result<(), ViewFault>
    ensures reads { Reads (no_call_failed result) (state S.Store conn.old) (state S.Store conn.new) }
    ensures written { HasCleanDisk (state S.Store conn.new) → OnOk result ((s : ClubState) → IsClub s →
        StoresClub s (state S.Store conn.old) →
        AddsRecord s id front.now (W.contents writer.old) (W.contents writer.new)) }
    ensures begun { HasCleanDisk (state S.Store conn.new) → (s : ClubState) → IsClub s →
        StoresClub s (state S.Store conn.old) →
        BeginsRecord s id front.now (W.contents writer.old) (W.contents writer.new) }
{
    write_front(front, writer)?;
    match export_game(alloc, conn, u64::from(id), writer) {
        Ok(true) => Ok(()),
        Ok(false) => Err(ViewFault::Call(LookupFault::Store)),
        Err(stopped) => Err(stopped),
    }
}

/// Writes the records of the games with these ids, all of this kind, one after another.
///
/// # Errors
///
/// - `ViewFault::Call`: reading the tables failed.
/// - `ViewFault::Output`: the writer failed.
///
/// # Guarantees
///
/// `begun`: after an error the writer has a prefix of the first records.
pub(crate) fn write_records<S: Alter, W: Write>(
    alloc: Global,
    conn: &mut Connection<S>,
    kind: GameKind,
    ids: &[u32],
    writer: &mut W,
) -> Result<Option<Refusal>, ViewFault>
    ensures reads { Reads (no_call_failed result) (state S.Store conn.old) (state S.Store conn.new) }
    ensures written { HasCleanDisk (state S.Store conn.new) → IfOk result (λ refusal. (s : ClubState) → IsClub s →
        StoresClub s (state S.Store conn.old) →
        HasRecords s kind ids.now refusal (W.contents writer.old) (W.contents writer.new)) }
    ensures begun { HasCleanDisk (state S.Store conn.new) → (s : ClubState) → IsClub s →
        StoresClub s (state S.Store conn.old) →
        BeginsRecords s kind ids.now (W.contents writer.old) (W.contents writer.new) }
{
    let mut is_first = true;
    for id in ids {
        match write_record_after(alloc, conn, opening(is_first, kind), *id, writer) {
            Ok(()) => {}
            Err(stopped) => return Err(stopped),
        }
        is_first = false;
    }
    Ok(None)
}
