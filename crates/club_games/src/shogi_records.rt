//! Records of shogi games, in the format of the Computer Shogi Association (CSA).

ghost use Rattle.std.specs.Prelude.{◌≡◌, ◌≢◌, IfOk, map, slice_get};
ghost use Rattle.club_rules.specs.internal.Records.{reading_of};
ghost use Rattle.club_games.specs.internal.CsaReading.{game_of, found_game};
ghost use Rattle.club_games.specs.CsaRecord.{csa_refusal};

use crate::shogi::{Shogi, refusal_of};
use club_rules::{RecordFormat, RecordReading, RecordRefusal, RecordedGame, Records};
use csa::{CsaFault, CsaGame, read_games};
use memory::Memory;
use squares::SMove;
use std::alloc::Global;

// The club's refusal for a fault of a text. Out of memory is an error, not a refusal.
fn refusal_of_text(fault: CsaFault) -> Result<RecordRefusal, Memory>
    ensures value { IfOk result (λ refusal. refusal ≡ csa_refusal fault) }
    ensures told { IfOk result (λ refusal. fault ≢ CsaFault.Memory) }
{
    match fault {
        CsaFault::Memory => Err(Memory),
        CsaFault::BadText { line } => Ok(RecordRefusal::BadText(RecordFormat::Csa, line)),
        CsaFault::Version => Ok(RecordRefusal::Version),
        CsaFault::OtherOpening => Ok(RecordRefusal::OtherOpening(RecordFormat::Csa)),
        CsaFault::Illegal { ply, cause } => Ok(RecordRefusal::Illegal {
            format: RecordFormat::Csa,
            ply,
            cause: refusal_of(cause),
        }),
        CsaFault::Unfinished => Ok(RecordRefusal::Unfinished(RecordFormat::Csa)),
        CsaFault::AfterEnd { ply } => Ok(RecordRefusal::AfterEnd {
            format: RecordFormat::Csa,
            ply,
        }),
        CsaFault::ResultDiffers => Ok(RecordRefusal::ResultDiffers(RecordFormat::Csa)),
    }
}

// The game with this index, counted from 0, or `NoPart`.
fn game_after(before: u64, games: Vec<CsaGame>) -> RecordReading<SMove>
    ensures { reading_of result ≡ found_game (slice_get (map game_of games.items) before) }
{
    let mut games = games;
    if before >= games.len() as u64 {
        return RecordReading::NoPart;
    }
    let game = games.remove(before as usize);
    RecordReading::Game(RecordedGame {
        moves: game.moves,
        score: game.score,
        declared: game.declared,
    })
}

impl Records for Shogi {
    ghost use Rattle.club_games.specs.internal.CsaLaws.{shogi-reads_games};
    ghost use Rattle.club_games.specs.ShogiRecords.{shogi_records};

    ghost records = { shogi_records };

    fn format() -> RecordFormat {
        RecordFormat::Csa
    }

    fn read_record(alloc: Global, text: &[u8], part: u64) -> Result<RecordReading<SMove>, Memory> {
        if part == 0 {
            return Ok(RecordReading::NoPart);
        }
        match read_games(alloc, text) {
            Ok(games) => Ok(game_after(part - 1, games)),
            Err(fault) => {
                let refusal = refusal_of_text(fault)?;
                Ok(RecordReading::Refused(refusal))
            }
        }
    }

    ghost reads_games = { shogi-reads_games };
}
