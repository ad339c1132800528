//! Incremental writer of a game, move by move.

ghost use Rattle.std.specs.Prelude.{◌≡◌, [], IfOk, OnOk, OnErr};
ghost use Rattle.record_writer.specs.Pieces.{AppendsSome};

use crate::head::PdnHead;
use crate::writing::{push_end, push_head, push_ply};
use draughts_moves::play;
use record_writer::{WriteFault, write_piece};
use squares::{DMove, DPos, Score};
use std::alloc::Global;
use std::io::Write;

/// A game that is being written as PDN: its tags and some of its moves are written.
///
/// It holds the text of one move at a time. Each call borrows the writer, so its owner keeps it if a call fails; the
/// writer then holds a prefix of the game's text.
#[derive(Drop)]
pub struct GameWriter {
    alloc: Global,
    position: DPos,
    plies: usize,
    score: Option<Score>,
    line: String,
}

impl GameWriter {
    ghost use Rattle.pdn_games.specs.internal.Writer.{tags_text, HasWritten, MayFollow, AddsMove, BeginsMove};
    ghost use Rattle.pdn_games.specs.internal.Writer.{StandsStill};
    ghost use Rattle.pdn_games.specs.internal.Writer.{Finishes, BeginsEnd};

    /// Writes the tags of a game.
    ///
    /// # Errors
    ///
    /// `WriteFault::Memory` if out of memory, with nothing written; `WriteFault::Writer` if the writer fails.
    ///
    /// # Guarantees
    ///
    /// `begun`: after any failure the writer holds a prefix of the tags.
    pub fn start<W: Write>(
        alloc: Global,
        head: &PdnHead,
        writer: &mut W,
    ) -> Result<GameWriter, WriteFault>
        ensures written { IfOk result (HasWritten head.now [] (W.contents writer.old) (W.contents writer.new)) }
        ensures begun { AppendsSome (W.contents writer.old) (W.contents writer.new) (tags_text head.now) }
        ensures refused { result ≡ Err WriteFault.Memory → writer.new ≡ writer.old }
    {
        let mut line = String::new(alloc);
        push_head(alloc, &mut line, head)?;
        write_piece(writer, line.as_bytes())?;
        Ok(GameWriter {
            alloc,
            position: DPos::opening(),
            plies: 0,
            score: head.score,
            line,
        })
    }

    /// Writes the next move, which is legal after the moves before it.
    ///
    /// # Errors
    ///
    /// `WriteFault::Memory` if out of memory, with nothing written; `WriteFault::Writer` if the writer fails.
    ///
    /// # Guarantees
    ///
    /// `still`: after a failure the game is unchanged, so the move can be written again once the writer is rewound.
    pub fn push<W: Write>(&mut self, writer: &mut W, played: &DMove) -> Result<(), WriteFault>
        requires { MayFollow self.old played.now }
        ensures written { OnOk result
            (AddsMove played.now self.old self.new (W.contents writer.old) (W.contents writer.new)) }
        ensures begun { BeginsMove played.now self.old (W.contents writer.old) (W.contents writer.new) }
        ensures still { OnErr result (StandsStill self.old self.new) }
        ensures refused { result ≡ Err WriteFault.Memory → writer.new ≡ writer.old }
    {
        self.line.clear();
        push_ply(
            self.alloc,
            &mut self.line,
            &self.position,
            self.plies,
            played,
        )?;
        write_piece(writer, self.line.as_bytes())?;
        self.position = play(&self.position, played);
        self.plies += 1;
        Ok(())
    }

    /// Writes the end of the game, which completes its text.
    ///
    /// # Errors
    ///
    /// `WriteFault::Memory` if out of memory, with nothing written; `WriteFault::Writer` if the writer fails.
    pub fn finish<W: Write>(self, writer: &mut W) -> Result<(), WriteFault>
        ensures written { OnOk result (Finishes self (W.contents writer.old) (W.contents writer.new)) }
        ensures begun { BeginsEnd self (W.contents writer.old) (W.contents writer.new) }
        ensures refused { result ≡ Err WriteFault.Memory → writer.new ≡ writer.old }
    {
        let GameWriter {
            alloc: _,
            position: _,
            plies,
            score,
            mut line,
        } = self;
        line.clear();
        push_end(&mut line, plies, score)?;
        write_piece(writer, line.as_bytes())?;
        Ok(())
    }
}
