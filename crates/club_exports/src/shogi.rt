//! Shogi records in the CSA format.
//! First is Black (sente).

ghost use Rattle.std.specs.Prelude.{◌≡◌};
ghost use Rattle.club_exports.specs.internal.Title.{title_of};
ghost use Rattle.club_exports.specs.CsaRecords.{end_told, outside_told, verdict_told};
ghost use Rattle.club_exports.specs.internal.CsaRecords.{IsCsaHead};

use crate::exports::WriteRecord;
use crate::heading::RecordHeader;
use club_core::GameEnd;
use club_games::Shogi;
use club_requests::{OutsideEnd, Verdict};
use csa::laws::written_moves_begin_games;
use csa::{CsaEnd, CsaHead, GameWriter};
use record_writer::WriteFault;
use shogi_repetition::SEnd;
use squares::{SMove, Score};
use std::alloc::Global;
use std::io::Write;

// The CSA end of a game that ended for an outside reason.
fn outside_told(end: OutsideEnd) -> CsaEnd
    ensures { result ≡ outside_told end }
{
    match end {
        OutsideEnd::Resigned => CsaEnd::Resigned,
        OutsideEnd::Time => CsaEnd::Time,
        OutsideEnd::Declared => CsaEnd::Declared,
        OutsideEnd::Agreed => CsaEnd::Recorded(Score::Draw),
        OutsideEnd::Recorded(score) => CsaEnd::Recorded(score),
    }
}

// The CSA end of a game that the arbiter ended; a void game has none.
fn verdict_told(verdict: Verdict) -> Option<CsaEnd>
    ensures { result ≡ verdict_told verdict }
{
    match verdict {
        Verdict::Awarded(score) => Some(CsaEnd::Recorded(score)),
        Verdict::Voided => None,
    }
}

// The CSA end of a game, if it ended.
fn end_told(end: Option<GameEnd<SEnd>>) -> Option<CsaEnd>
    ensures { result ≡ end_told end }
{
    match end {
        Some(GameEnd::Rule(end)) => Some(CsaEnd::Rule(end)),
        Some(GameEnd::Verdict(verdict)) => verdict_told(verdict),
        Some(GameEnd::Outside(end)) => Some(outside_told(end)),
        None => None,
    }
}

fn head_of<'a>(heading: &RecordHeader<'a, SEnd>) -> CsaHead<'a>
    ensures { IsCsaHead (title_of heading.now) result }
{
    CsaHead {
        event: heading.event,
        black: heading.first,
        white: heading.second,
        start: heading.start,
        end: end_told(heading.end),
    }
}

impl WriteRecord for Shogi {
    type Record = GameWriter;

    ghost use Rattle.club_exports.specs.CsaRecords.{IsCsaText};
    ghost use Rattle.club_exports.specs.internal.CsaRecords.{HasWrittenCsa};
    ghost use Rattle.club_exports.specs.internal.RecordLaws.{csa-may_follow};
    ghost use Rattle.csa.specs.internal.Writer.{MayFollow};

    ghost IsText = { IsCsaText };

    ghost HasWritten = { HasWrittenCsa };

    ghost MayFollow = { MayFollow };

    fn begin_record<W: Write>(
        alloc: Global,
        heading: &RecordHeader<SEnd>,
        writer: &mut W,
    ) -> Result<GameWriter, WriteFault> {
        written_moves_begin_games();
        let head = head_of(heading);
        GameWriter::start(alloc, &head, writer)
    }

    fn push_move<W: Write>(
        draft: &mut GameWriter,
        writer: &mut W,
        made: &SMove,
        seconds: u64,
    ) -> Result<(), WriteFault> {
        written_moves_begin_games();
        draft.push(writer, made, seconds)
    }

    fn finish_record<W: Write>(draft: GameWriter, writer: &mut W) -> Result<bool, WriteFault> {
        written_moves_begin_games();
        if !draft.may_end() {
            return Ok(false);
        }
        draft.finish(writer)?;
        Ok(true)
    }

    fn begins_games() {
        written_moves_begin_games();
    }

    ghost may_follow = { csa-may_follow };
}
