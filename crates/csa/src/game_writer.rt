//! Incremental writer of a game, move by move.

ghost use Rattle.std.specs.Prelude.{◌≡◌, ◌↔◌, [], IsTrue, IfOk, OnOk, OnErr};

use crate::head::{CsaEnd, CsaHead};
use crate::writing::{push_end, push_entry, push_head};
use clocks::civil;
use record_writer::{WriteFault, write_piece};
use shogi_moves::{can_declare, play};
use squares::{SMove, SPos};
use std::alloc::Global;
use std::io::Write;

/// A game that is being written as CSA text: its head and some of its moves are written.
///
/// It holds the text of one move at a time. Each call borrows the writer, so its owner keeps it if a call fails; the
/// writer then holds a prefix of the game's text.
#[derive(Drop)]
pub struct GameWriter {
    position: SPos,
    end: Option<CsaEnd>,
    line: String,
}

impl GameWriter {
    ghost use Rattle.csa.specs.internal.Writer.{lines_text, HasBegun, HasWritten, MayFollow, MayEnd, AddsEntry};
    ghost use Rattle.csa.specs.internal.Writer.{BeginsEntry};
    ghost use Rattle.csa.specs.internal.Writer.{StandsStill};
    ghost use Rattle.csa.specs.internal.Writer.{Finishes, BeginsEnd};

    /// Writes the lines before the moves.
    ///
    /// # Errors
    ///
    /// `WriteFault::Memory` if out of memory, with nothing written; `WriteFault::Writer` if the writer fails.
    ///
    /// # Guarantees
    ///
    /// `begun`: after any failure the writer holds a prefix of these lines.
    pub fn start<W: Write>(
        alloc: Global,
        head: &CsaHead,
        writer: &mut W,
    ) -> Result<GameWriter, WriteFault>
        ensures written { IfOk result (HasWritten head.now [] (W.contents writer.old) (W.contents writer.new)) }
        ensures begun { HasBegun head.now.start (lines_text head.now) (W.contents writer.old) (W.contents writer.new) }
        ensures refused { result ≡ Err WriteFault.Memory → writer.new ≡ writer.old }
    {
        let start = civil(head.start);
        let mut line = String::new(alloc);
        push_head(&mut line, head, &start)?;
        write_piece(writer, line.as_bytes())?;
        Ok(GameWriter {
            position: SPos::opening(),
            end: head.end,
            line,
        })
    }

    /// Writes the next move, which is legal after the moves before it, and its time in seconds.
    ///
    /// # Errors
    ///
    /// `WriteFault::Memory` if out of memory, with nothing written; `WriteFault::Writer` if the writer fails.
    ///
    /// # Guarantees
    ///
    /// `still`: after a failure the game is unchanged, so the move can be written again once the writer is rewound.
    pub fn push<W: Write>(
        &mut self,
        writer: &mut W,
        played: &SMove,
        seconds: u64,
    ) -> Result<(), WriteFault>
        requires { MayFollow self.old played.now }
        ensures written { OnOk result
            (AddsEntry (played.now, seconds) self.old self.new (W.contents writer.old) (W.contents writer.new)) }
        ensures begun { BeginsEntry (played.now, seconds) self.old (W.contents writer.old) (W.contents writer.new) }
        ensures still { OnErr result (StandsStill self.old self.new) }
        ensures refused { result ≡ Err WriteFault.Memory → writer.new ≡ writer.old }
    {
        self.line.clear();
        push_entry(&mut self.line, &self.position, played, seconds)?;
        write_piece(writer, self.line.as_bytes())?;
        self.position = play(&self.position, played);
        Ok(())
    }

    /// Whether the end of the game agrees with the moves that are written: a declared win must be allowed in the last
    /// position.
    pub fn may_end(&self) -> bool
        ensures { IsTrue result ↔ MayEnd self.now }
    {
        match self.end {
            Some(CsaEnd::Declared) => can_declare(&self.position),
            _ => true,
        }
    }

    /// Writes the end of the game, which completes its text.
    ///
    /// # Errors
    ///
    /// `WriteFault::Memory` if out of memory, with nothing written; `WriteFault::Writer` if the writer fails.
    pub fn finish<W: Write>(self, writer: &mut W) -> Result<(), WriteFault>
        requires { MayEnd self }
        ensures written { OnOk result (Finishes self (W.contents writer.old) (W.contents writer.new)) }
        ensures begun { BeginsEnd self (W.contents writer.old) (W.contents writer.new) }
        ensures refused { result ≡ Err WriteFault.Memory → writer.new ≡ writer.old }
    {
        let GameWriter {
            position,
            end,
            mut line,
        } = self;
        line.clear();
        push_end(&mut line, end, position.turn())?;
        write_piece(writer, line.as_bytes())?;
        Ok(())
    }
}
