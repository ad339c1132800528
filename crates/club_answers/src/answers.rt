//! The entry point: writes the answer to a query.

ghost use Rattle.std.specs.Prelude.{◌≡◌, ℕ, IfOk};
ghost use Rattle.record_writer.specs.Pieces.{AppendsSome};
ghost use Rattle.sqlite.specs.State.{HasCleanDisk};
ghost use Rattle.sqlite.specs.Held.{state};
ghost use Rattle.store_tables.specs.Reading.{Reads};
ghost use Rattle.club_rows.specs.Club.{ClubState, IsClub, StoresClub};
ghost use Rattle.club_rows.specs.Tables.{version_of};
ghost use Rattle.club_answers.specs.internal.Exported.{no_call_failed};
ghost use Rattle.club_requests.specs.declared.questions.Question.TheVariants as question;
ghost use Rattle.club_answers.specs.AnswerTexts.{HasWrittenAnswer, HasShownSome};
ghost use Rattle.club_answers.specs.internal.Writing.{IsWritten};

use crate::found::{Shown, read_answer};
use crate::records::write_records;
use crate::{ViewFault, export_game};
use clocks::Moment;
use club_requests::{Question, Refusal};
use record_writer::write_piece;
use sqlite::{Alter, Connection};
use std::alloc::Global;
use std::io::Write;
use store_tables::Version;

// Writes a text; after an error the writer has a prefix of it.
fn write_text<W: Write>(text: &str, writer: &mut W) -> Result<Option<Refusal>, ViewFault>
    ensures written { IsWritten result text.now (W.contents writer.old) (W.contents writer.new) }
    ensures begun { AppendsSome (W.contents writer.old) (W.contents writer.new) text.now }
{
    match write_piece(writer, text.as_bytes()) {
        Ok(()) => Ok(None),
        Err(_) => Err(ViewFault::Output),
    }
}

fn write_record<S: Alter, W: Write>(
    alloc: Global,
    conn: &mut Connection<S>,
    game: u64,
    writer: &mut W,
) -> Result<Option<Refusal>, ViewFault>
    ensures reads { Reads (no_call_failed result) (state S.Store conn.old) (state S.Store conn.new) }
    ensures shown { HasCleanDisk (state S.Store conn.new) → IfOk result (λ refusal. (s : ClubState) (moment : ℕ) →
        IsClub s → StoresClub s (state S.Store conn.old) →
        HasWrittenAnswer s moment (question.Record game) refusal (W.contents writer.old) (W.contents writer.new)) }
    ensures begun { HasCleanDisk (state S.Store conn.new) → (s : ClubState) (moment : ℕ) → IsClub s →
        StoresClub s (state S.Store conn.old) →
        HasShownSome s moment (question.Record game) (W.contents writer.old) (W.contents writer.new) }
{
    match export_game(alloc, conn, game, writer) {
        Ok(true) => Ok(None),
        Ok(false) => Ok(Some(Refusal::UnknownGame)),
        Err(stopped) => Err(stopped),
    }
}

/// Writes the answer to a query to a club of this version at this timestamp, or returns the refusal, and then nothing
/// is written.
///
/// # Errors
///
/// - `ViewFault::Call`: reading the tables failed.
/// - `ViewFault::Output`: the writer failed.
///
/// # Guarantees
///
/// `shown`: the text written is the answer of the stored state. `begun`: after an error the writer has a prefix of it;
/// of the records of an event, a prefix of the first records.
pub fn answer<S: Alter, W: Write>(
    alloc: Global,
    version: Version,
    conn: &mut Connection<S>,
    question: &Question,
    moment: Moment,
    writer: &mut W,
) -> Result<Option<Refusal>, ViewFault>
    ensures reads { Reads (no_call_failed result) (state S.Store conn.old) (state S.Store conn.new) }
    ensures shown { HasCleanDisk (state S.Store conn.new) → IfOk result (λ refusal. (s : ClubState) → IsClub s →
        version ≡ version_of s → StoresClub s (state S.Store conn.old) →
        HasWrittenAnswer s moment question.now refusal (W.contents writer.old) (W.contents writer.new)) }
    ensures begun { HasCleanDisk (state S.Store conn.new) → (s : ClubState) → IsClub s →
        version ≡ version_of s → StoresClub s (state S.Store conn.old) →
        HasShownSome s moment question.now (W.contents writer.old) (W.contents writer.new) }
{
    let found = read_answer(alloc, version, conn, question, moment)?;
    match found {
        Shown::Text(text) => write_text(text.as_str(), writer),
        Shown::Refused(refusal) => Ok(Some(refusal)),
        Shown::Record(game) => write_record(alloc, conn, game, writer),
        Shown::Records(kind, ids) => write_records(alloc, conn, kind, &ids, writer),
    }
}
