//! Records of draughts games, in Portable Draughts Notation (PDN).

ghost use Rattle.std.specs.Prelude.{◌≡◌, ◌≢◌, IfOk};
ghost use Rattle.club_rules.specs.internal.Records.{recorded_of};
ghost use Rattle.club_games.specs.internal.PdnReading.{game_of};
ghost use Rattle.club_games.specs.PdnRecord.{pdn_refusal};

use crate::draughts::{Draughts, refusal_of};
use club_rules::{RecordFormat, RecordReading, RecordRefusal, RecordedGame, Records};
use memory::Memory;
use pdn_games::{PdnFault, PdnGame, read_game};
use squares::DMove;
use std::alloc::Global;

// The club's refusal for a fault of a text. Out of memory is an error, not a refusal.
fn refusal_of_text(fault: PdnFault) -> Result<RecordRefusal, Memory>
    ensures value { IfOk result (λ refusal. refusal ≡ pdn_refusal fault) }
    ensures told { IfOk result (λ refusal. fault ≢ PdnFault.Memory) }
{
    match fault {
        PdnFault::Memory => Err(Memory),
        PdnFault::BadText(offset) => Ok(RecordRefusal::BadText(RecordFormat::Pdn, offset)),
        PdnFault::Ambiguous(ply) => Ok(RecordRefusal::Ambiguous { ply }),
        PdnFault::Illegal { ply, cause } => Ok(RecordRefusal::Illegal {
            format: RecordFormat::Pdn,
            ply,
            cause: refusal_of(cause),
        }),
        PdnFault::OtherType => Ok(RecordRefusal::OtherType),
        PdnFault::OtherOpening => Ok(RecordRefusal::OtherOpening(RecordFormat::Pdn)),
        PdnFault::Unfinished => Ok(RecordRefusal::Unfinished(RecordFormat::Pdn)),
        PdnFault::AfterEnd(ply) => Ok(RecordRefusal::AfterEnd {
            format: RecordFormat::Pdn,
            ply,
        }),
        PdnFault::ResultDiffers => Ok(RecordRefusal::ResultDiffers(RecordFormat::Pdn)),
    }
}

// A game that was read, as the club's type; draughts has no declared wins.
fn game_of(game: PdnGame) -> RecordedGame<DMove>
    ensures { recorded_of result ≡ game_of game }
{
    RecordedGame {
        moves: game.moves,
        score: game.score,
        declared: false,
    }
}

impl Records for Draughts {
    ghost use Rattle.club_games.specs.internal.PdnLaws.{draughts-reads_games};
    ghost use Rattle.club_games.specs.DraughtsRecords.{draughts_records};

    ghost records = { draughts_records };

    fn format() -> RecordFormat {
        RecordFormat::Pdn
    }

    fn read_record(alloc: Global, text: &[u8], part: u64) -> Result<RecordReading<DMove>, Memory> {
        if part != 1 {
            return Ok(RecordReading::NoPart);
        }
        match read_game(alloc, text) {
            Ok(game) => Ok(RecordReading::Game(game_of(game))),
            Err(fault) => {
                let refusal = refusal_of_text(fault)?;
                Ok(RecordReading::Refused(refusal))
            }
        }
    }

    ghost reads_games = { draughts-reads_games };
}
