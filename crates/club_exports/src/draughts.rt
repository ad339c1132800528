//! Draughts records in Portable Draughts Notation (PDN).

ghost use Rattle.club_exports.specs.internal.Title.{title_of};
ghost use Rattle.club_exports.specs.internal.PdnRecords.{IsPdnHead};

use crate::exports::WriteRecord;
use crate::heading::RecordHeader;
use clocks::civil;
use club_games::Draughts;
use draughts_draws::DEnd;
use pdn_games::laws::written_moves_begin_games;
use pdn_games::{GameWriter, PdnHead};
use record_writer::WriteFault;
use squares::DMove;
use std::alloc::Global;
use std::io::Write;

// The PDN tags of a game. First is White.
fn head_of<'a>(heading: &RecordHeader<'a, DEnd>) -> PdnHead<'a>
    ensures { IsPdnHead (title_of heading.now) result }
{
    PdnHead {
        event: heading.event,
        date: civil(heading.start),
        white: heading.first,
        black: heading.second,
        score: heading.result,
    }
}

impl WriteRecord for Draughts {
    type Record = GameWriter;

    ghost use Rattle.club_exports.specs.PdnRecords.{IsPdnText};
    ghost use Rattle.club_exports.specs.internal.PdnRecords.{HasWrittenPdn};
    ghost use Rattle.club_exports.specs.internal.RecordLaws.{pdn-may_follow};
    ghost use Rattle.pdn_games.specs.internal.Writer.{MayFollow};

    ghost IsText = { IsPdnText };

    ghost HasWritten = { HasWrittenPdn };

    ghost MayFollow = { MayFollow };

    fn begin_record<W: Write>(
        alloc: Global,
        heading: &RecordHeader<DEnd>,
        writer: &mut W,
    ) -> Result<GameWriter, WriteFault> {
        written_moves_begin_games();
        let head = head_of(heading);
        GameWriter::start(alloc, &head, writer)
    }

    fn push_move<W: Write>(
        draft: &mut GameWriter,
        writer: &mut W,
        made: &DMove,
        seconds: u64,
    ) -> Result<(), WriteFault> {
        written_moves_begin_games();
        draft.push(writer, made)
    }

    fn finish_record<W: Write>(draft: GameWriter, writer: &mut W) -> Result<bool, WriteFault> {
        draft.finish(writer)?;
        Ok(true)
    }

    fn begins_games() {
        written_moves_begin_games();
    }

    ghost may_follow = { pdn-may_follow };
}
