//! The rules of shogi for the club.

ghost use Rattle.std.specs.Prelude.{◌≡◌};
ghost use Rattle.club_games.specs.Shogi.{shogi, refusal_of, same_move};

use club_rules::{EndName, GameKind, MoveRefusal, Rules};
use memory::Memory;
use sfen::SfenFault;
use shogi_moves::Illegal;
use shogi_repetition::{SEnd, SLineFault, Tail};
use squares::{SMove, SPos, Score, Side};
use std::alloc::Global;

/// Shogi.
pub struct Shogi;

/// The club's refusal for a move that the rules refuse.
pub fn refusal_of(illegal: Illegal) -> MoveRefusal
    ensures { result ≡ refusal_of illegal }
{
    match illegal {
        Illegal::NoSuchMove => MoveRefusal::NoSuchMove(GameKind::Shogi),
        Illegal::NotInHand => MoveRefusal::NotInHand,
        Illegal::MustPromote => MoveRefusal::MustPromote,
        Illegal::DeadDrop => MoveRefusal::DeadDrop,
        Illegal::TwoPawns => MoveRefusal::TwoPawns,
        Illegal::KingAttacked => MoveRefusal::KingAttacked,
        Illegal::DropMate => MoveRefusal::DropMate,
    }
}

fn is_same(a: &SMove, b: &SMove) -> bool
    ensures { result ≡ same_move a.now b.now }
{
    a == b
}

impl Rules for Shogi {
    type Position = SPos;

    type Move = SMove;

    type End = SEnd;

    type Track = Tail;

    ghost use Rattle.club_games.specs.internal.Shogi.{IsPositionText};
    ghost use Rattle.club_games.specs.internal.ShogiLaws as laws;

    ghost rules = { shogi };

    ghost StandsFor = { IsPositionText };

    fn start() -> SPos {
        SPos::opening()
    }

    fn turn(position: &SPos) -> Side {
        position.turn()
    }

    fn check(position: &SPos, made: &SMove) -> Result<(), MoveRefusal> {
        match shogi_moves::check(position, made) {
            Ok(()) => Ok(()),
            Err(illegal) => Err(refusal_of(illegal)),
        }
    }

    fn legal(alloc: Global, position: &SPos) -> Result<Vec<SMove>, Memory> {
        match shogi_moves::legal(alloc, position) {
            Ok(moves) => Ok(moves),
            Err(_) => Err(Memory),
        }
    }

    fn is_same_move(a: &SMove, b: &SMove) -> bool {
        is_same(a, b)
    }

    fn play(position: &SPos, made: &SMove) -> SPos {
        shogi_moves::play(position, made)
    }

    fn read_move(
        alloc: Global,
        position: &SPos,
        text: &str,
    ) -> Result<Result<SMove, MoveRefusal>, Memory> {
        match sfen::read_usi(text) {
            Ok(read) => Ok(Ok(read)),
            Err(SfenFault::BadText(offset)) => {
                Ok(Err(MoveRefusal::BadText(GameKind::Shogi, offset)))
            }
            Err(SfenFault::TooManyPieces) => unreachable!(),
            Err(SfenFault::Kings) => unreachable!(),
        }
    }

    fn write_move(alloc: Global, position: &SPos, made: &SMove) -> Result<String, Memory> {
        match sfen::write_usi(alloc, made) {
            Ok(text) => Ok(text),
            Err(_) => Err(Memory),
        }
    }

    fn write_position(alloc: Global, position: &SPos) -> Result<String, Memory> {
        match sfen::write_position(alloc, position) {
            Ok(text) => Ok(text),
            Err(_) => Err(Memory),
        }
    }

    fn read_position(alloc: Global, text: &str) -> Result<Option<SPos>, Memory> {
        match sfen::read(text) {
            Ok((position, _number)) => Ok(Some(position)),
            Err(_) => Ok(None),
        }
    }

    fn judge(alloc: Global, start: &SPos, moves: &[SMove]) -> Result<Option<SEnd>, Memory> {
        match shogi_repetition::judge(alloc, start, moves) {
            Ok(end) => Ok(end),
            Err(SLineFault::Memory) => Err(Memory),
            Err(SLineFault::Illegal { ply: _, cause: _ }) => unreachable!(),
            Err(SLineFault::AfterEnd { ply: _ }) => unreachable!(),
        }
    }

    fn track_start(position: &SPos) -> Tail {
        Tail::start()
    }

    fn track_next(track: Tail, before: &SPos, made: &SMove, after: &SPos) -> Tail {
        track.next(after)
    }

    fn track_end(
        track: Tail,
        position: &SPos,
        plies: usize,
        times: usize,
        first: usize,
    ) -> Option<SEnd> {
        track.end(position, plies, times, first)
    }

    fn track_numbers(track: &Tail) -> (u32, u32) {
        (track.first_checks, track.second_checks)
    }

    fn track_of(first: u32, second: u32) -> Tail {
        Tail {
            first_checks: first,
            second_checks: second,
        }
    }

    fn outcome(end: &SEnd, turn: Side) -> Score {
        end.outcome(turn)
    }

    fn end_name(end: &SEnd) -> EndName {
        match end {
            SEnd::NoMove => EndName::NoMove,
            SEnd::PerpetualCheck(_) => EndName::PerpetualCheck,
            SEnd::Fourfold => EndName::Fourfold,
            SEnd::PlyLimit => EndName::PlyLimit,
        }
    }

    fn has_draw_offers() -> bool {
        false
    }

    fn can_declare(position: &SPos) -> bool {
        shogi_moves::can_declare(position)
    }

    ghost first_starts = { laws.shogi-first_starts };

    ghost starts_running = { laws.shogi-starts_running };

    ghost turn_passes = { laws.shogi-turn_passes };

    ghost reads_back = { laws.shogi-reads_back };

    ghost same_is = { laws.shogi-same_is };

    ghost same_position_is = { laws.shogi-same_position_is };

    ghost ends_at_limit = { laws.shogi-ends_at_limit };

    ghost writes_positions = { laws.shogi-writes_positions };

    ghost stands_for_one = { laws.shogi-stands_for_one };

    ghost texts_tell_positions = { laws.shogi-texts_tell_positions };

    ghost tracks_tell_ends = { laws.shogi-tracks_tell_ends };

    ghost numbers_give_tracks = { laws.shogi-numbers_give_tracks };

    ghost tracks_give_numbers = { laws.shogi-tracks_give_numbers };

    ghost numbers_are_few = { laws.shogi-numbers_are_few };
}
