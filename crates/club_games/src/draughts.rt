//! The rules of international draughts for the club.

ghost use Rattle.std.specs.Prelude.{◌≡◌};
ghost use Rattle.club_games.specs.Draughts.{draughts, refusal_of};

use club_rules::{EndName, GameKind, MoveRefusal, Rules};
use draughts_draws::{DEnd, DLineFault, Tail};
use draughts_moves::Illegal;
use memory::Memory;
use pdn::{FenFault, MoveFault};
use squares::{DMove, DPos, Score, Side};
use std::alloc::Global;

/// International draughts.
pub struct Draughts;

/// The club's refusal for a move that the rules refuse.
pub fn refusal_of(illegal: Illegal) -> MoveRefusal
    ensures { result ≡ refusal_of illegal }
{
    match illegal {
        Illegal::NoSuchMove => MoveRefusal::NoSuchMove(GameKind::Draughts),
        Illegal::MustCapture => MoveRefusal::MustCapture,
        Illegal::NotLongest => MoveRefusal::NotLongest,
    }
}

impl Rules for Draughts {
    type Position = DPos;

    type Move = DMove;

    type End = DEnd;

    type Track = Tail;

    ghost use Rattle.pdn.specs.ReadFen.{IsFen};
    ghost use Rattle.club_games.specs.internal.DraughtsLaws as laws;

    ghost rules = { draughts };

    ghost StandsFor = { IsFen };

    fn start() -> DPos {
        DPos::opening()
    }

    fn turn(position: &DPos) -> Side {
        position.turn()
    }

    fn check(position: &DPos, made: &DMove) -> Result<(), MoveRefusal> {
        match draughts_moves::check(position, made) {
            Ok(()) => Ok(()),
            Err(illegal) => Err(refusal_of(illegal)),
        }
    }

    fn legal(alloc: Global, position: &DPos) -> Result<Vec<DMove>, Memory> {
        match draughts_moves::legal(alloc, position) {
            Ok(moves) => Ok(moves),
            Err(_) => Err(Memory),
        }
    }

    fn is_same_move(a: &DMove, b: &DMove) -> bool {
        a == b
    }

    fn play(position: &DPos, made: &DMove) -> DPos {
        draughts_moves::play(position, made)
    }

    fn read_move(
        alloc: Global,
        position: &DPos,
        text: &str,
    ) -> Result<Result<DMove, MoveRefusal>, Memory> {
        match pdn::read_move(alloc, position, text) {
            Ok(read) => Ok(Ok(read)),
            Err(MoveFault::Memory) => Err(Memory),
            Err(MoveFault::BadText(offset)) => {
                Ok(Err(MoveRefusal::BadText(GameKind::Draughts, offset)))
            }
            Err(MoveFault::Ambiguous) => Ok(Err(MoveRefusal::Ambiguous)),
            Err(MoveFault::Illegal(cause)) => Ok(Err(refusal_of(cause))),
        }
    }

    fn write_move(alloc: Global, position: &DPos, made: &DMove) -> Result<String, Memory> {
        match pdn::write_move(alloc, position, made) {
            Ok(text) => Ok(text),
            Err(_) => Err(Memory),
        }
    }

    fn write_position(alloc: Global, position: &DPos) -> Result<String, Memory> {
        match pdn::write_fen(alloc, position) {
            Ok(text) => Ok(text),
            Err(_) => Err(Memory),
        }
    }

    fn read_position(alloc: Global, text: &str) -> Result<Option<DPos>, Memory> {
        match pdn::read_fen(alloc, text) {
            Ok(position) => Ok(Some(position)),
            Err(FenFault::Memory) => Err(Memory),
            Err(FenFault::BadText(_)) => Ok(None),
        }
    }

    fn judge(alloc: Global, start: &DPos, moves: &[DMove]) -> Result<Option<DEnd>, Memory> {
        match draughts_draws::judge(alloc, start, moves) {
            Ok(end) => Ok(end),
            Err(DLineFault::Memory) => Err(Memory),
            Err(DLineFault::Illegal { ply: _, cause: _ }) => unreachable!(),
            Err(DLineFault::AfterEnd { ply: _ }) => unreachable!(),
        }
    }

    fn track_start(position: &DPos) -> Tail {
        Tail::start(position)
    }

    fn track_next(track: Tail, before: &DPos, made: &DMove, after: &DPos) -> Tail {
        track.next(before, made, after)
    }

    fn track_end(
        track: Tail,
        position: &DPos,
        plies: usize,
        times: usize,
        first: usize,
    ) -> Option<DEnd> {
        track.end(position, plies, times)
    }

    fn track_numbers(track: &Tail) -> (u32, u32) {
        (track.king_plies, track.class_positions)
    }

    fn track_of(first: u32, second: u32) -> Tail {
        Tail {
            king_plies: first,
            class_positions: second,
        }
    }

    fn outcome(end: &DEnd, turn: Side) -> Score {
        end.outcome(turn)
    }

    fn end_name(end: &DEnd) -> EndName {
        match end {
            DEnd::NoMove => EndName::NoMove,
            DEnd::Repetition => EndName::Repetition,
            DEnd::KingMoves => EndName::KingMoves,
            DEnd::ThreeToOne => EndName::ThreeToOne,
            DEnd::TwoToOne => EndName::TwoToOne,
            DEnd::PlyLimit => EndName::PlyLimit,
        }
    }

    fn has_draw_offers() -> bool {
        true
    }

    fn can_declare(position: &DPos) -> bool {
        false
    }

    ghost first_starts = { laws.draughts-first_starts };

    ghost starts_running = { laws.draughts-starts_running };

    ghost turn_passes = { laws.draughts-turn_passes };

    ghost reads_back = { laws.draughts-reads_back };

    ghost same_is = { laws.draughts-same_is };

    ghost same_position_is = { laws.draughts-same_position_is };

    ghost ends_at_limit = { laws.draughts-ends_at_limit };

    ghost writes_positions = { laws.draughts-writes_positions };

    ghost stands_for_one = { laws.draughts-stands_for_one };

    ghost texts_tell_positions = { laws.draughts-texts_tell_positions };

    ghost tracks_tell_ends = { laws.draughts-tracks_tell_ends };

    ghost numbers_give_tracks = { laws.draughts-numbers_give_tracks };

    ghost tracks_give_numbers = { laws.draughts-tracks_give_numbers };

    ghost numbers_are_few = { laws.draughts-numbers_are_few };
}
