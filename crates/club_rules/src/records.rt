//! Game records: texts that other programs write and read.

ghost use Rattle.std.specs.Prelude.{◌≡◌, IfOk};
ghost use Rattle.club_rules.specs.Records.{GameRecords, ReadsGames};
ghost use Rattle.club_rules.specs.internal.Records.{reading_of};

use crate::game::Rules;
use crate::record_refusals::RecordRefusal;
use memory::Memory;
use squares::Score;
use std::alloc::Global;

/// A format of records.
#[derive(Clone, Copy, Debug, PartialEq, Eq)]
pub enum RecordFormat {
    /// Portable Draughts Notation (PDN).
    Pdn,
    /// The standard record format of the Computer Shogi Association (CSA).
    Csa,
}

/// A recorded game from the initial position: its moves, its score, and whether it ended by a declared win.
#[derive(Drop)]
pub struct RecordedGame<M> {
    pub moves: Vec<M>,
    pub score: Score,
    /// Whether the side to move after these moves declared a win.
    pub declared: bool,
}

/// The result of reading one part (one game) of a text of records.
#[derive(Drop)]
pub enum RecordReading<M> {
    Game(RecordedGame<M>),
    /// The text has no such part.
    NoPart,
    Refused(RecordRefusal),
}

/// The records of a game: their format and their reader.
pub trait Records: Rules {
    ghost records: { GameRecords Self.Move };

    /// The format of this game's records.
    fn format() -> RecordFormat
        ensures { result ≡ records.format };

    /// Reads one part of a text; parts count from 1. A PDN text has one part. A refused CSA text is refused for every
    /// part from 1 on. Any other part is `NoPart`.
    ///
    /// # Errors
    ///
    /// `Memory` if out of memory.
    fn read_record(
        alloc: Global,
        text: &[u8],
        part: u64,
    ) -> Result<RecordReading<Self::Move>, Memory>
        ensures { IfOk result (λ read. reading_of read ≡ records.read text.now part) };

    /// A game that is read is legal. If the rules ended it, its score is theirs; a declared win is one that the side to
    /// move may declare.
    ghost reads_games: { ReadsGames Self.rules records };
}
