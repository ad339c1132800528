//! The trait of a game's rules, with the laws that the club's proofs need of them.

ghost use Rattle.std.specs.Prelude.{◌≡◌, ◌<◌, ℕ, List, IfOk, Ok, string_bytes};
ghost use Rattle.club_rules.specs.GameRules.{GameRules};
ghost use Rattle.club_rules.specs.Laws.{FirstStarts, StartsRunning, TurnPasses, ReadsBack, SameIs, SamePositionIs};
ghost use Rattle.club_rules.specs.Laws.{EndsAtLimit};
ghost use Rattle.club_rules.specs.Laws.{WritesPositions, StandsForOne, TextsTellPositions};
ghost use Rattle.club_rules.specs.internal.Laws.{IsPositionRead};
ghost use Rattle.club_rules.specs.Laws.{TracksTellEnds, NumbersGiveTracks, TracksGiveNumbers, NumbersAreFew};
ghost use Rattle.club_rules.specs.Line.{IsPlayedLine};
ghost use Rattle.club_rules.specs.Listed.{IsLegalList};

use crate::names::EndName;
use crate::refusals::MoveRefusal;
use memory::Memory;
use squares::{Score, Side};
use std::alloc::Global;

/// The rules of a two-player game: initial position, legal moves, notation, and the ends of games.
///
/// # Errors
///
/// A method that takes an allocator returns `Memory` if out of memory, and fails for no other reason.
pub trait Rules {
    type Position: Drop;

    type Move: Copy + Drop;

    type End: Copy + Drop;

    /// The summary of a line by which its last ply is judged without the plies before it.
    type Track: Copy + Drop;

    ghost rules: { GameRules Self.Position Self.Move Self.End Self.Track };

    /// The text denotes the position.
    ghost StandsFor: { List ℕ → Self.Position → Type 0 };

    /// The initial position of every game of the club.
    fn start() -> Self::Position
        ensures { result ≡ rules.start };

    /// The side to move.
    fn turn(position: &Self::Position) -> Side
        ensures { result ≡ rules.turn position.now };

    /// Checks that a move is legal.
    ///
    /// # Errors
    ///
    /// The first `MoveRefusal` that holds, in the order of the game's checks.
    fn check(position: &Self::Position, made: &Self::Move) -> Result<(), MoveRefusal>
        ensures { result ≡ rules.check position.now made.now };

    /// The legal moves, each once, in the game's move order.
    fn legal(alloc: Global, position: &Self::Position) -> Result<Vec<Self::Move>, Memory>
        ensures { IfOk result (λ moves. IsLegalList rules position.now moves.items) };

    /// Whether two moves are equal.
    fn is_same_move(a: &Self::Move, b: &Self::Move) -> bool
        ensures { result ≡ rules.same a.now b.now };

    /// The position after a legal move.
    fn play(position: &Self::Position, made: &Self::Move) -> Self::Position
        requires { rules.check position.now made.now ≡ Ok tt }
        ensures { result ≡ rules.play position.now made.now };

    /// The move that a text denotes in a position, or the reason why there is none. The move may be illegal.
    fn read_move(
        alloc: Global,
        position: &Self::Position,
        text: &str,
    ) -> Result<Result<Self::Move, MoveRefusal>, Memory>
        ensures { IfOk result (λ read. read ≡ rules.read_move position.now text.now) };

    /// The text of a legal move.
    fn write_move(
        alloc: Global,
        position: &Self::Position,
        made: &Self::Move,
    ) -> Result<String, Memory>
        requires { rules.check position.now made.now ≡ Ok tt }
        ensures { IfOk result (λ text. string_bytes text ≡ rules.write_move position.now made.now) };

    /// The text of a position.
    fn write_position(alloc: Global, position: &Self::Position) -> Result<String, Memory>
        ensures { IfOk result (λ text. string_bytes text ≡ rules.write_position position.now) };

    /// The position that a text denotes, or `None` if it denotes none.
    fn read_position(alloc: Global, text: &str) -> Result<Option<Self::Position>, Memory>
        ensures { IfOk result (IsPositionRead StandsFor text.now) };

    /// The end that the rules give after the last of these moves, if any. No earlier ply may have ended the game.
    fn judge(
        alloc: Global,
        start: &Self::Position,
        moves: &[Self::Move],
    ) -> Result<Option<Self::End>, Memory>
        requires { IsPlayedLine rules start.now moves.now }
        ensures { IfOk result (λ end. end ≡ rules.judge start.now moves.now) };

    /// The track of a line without moves.
    fn track_start(position: &Self::Position) -> Self::Track
        ensures { result ≡ rules.track_start position.now };

    /// The track after one more move, made in the position `before` and leading to `after`.
    fn track_next(
        track: Self::Track,
        before: &Self::Position,
        made: &Self::Move,
        after: &Self::Position,
    ) -> Self::Track
        requires first { (rules.track_numbers track).0 < 4294967295 }
        requires second { (rules.track_numbers track).1 < 4294967295 }
        ensures { result ≡ rules.track_next track before.now made.now after.now };

    /// The end of a line with this track. `plies` counts its moves, `times` is the repetition count of its last
    /// position, and `first` is the ply after which that position first occurred.
    fn track_end(
        track: Self::Track,
        position: &Self::Position,
        plies: usize,
        times: usize,
        first: usize,
    ) -> Option<Self::End>
        ensures { result ≡ rules.track_end track position.now plies times first };

    /// The two numbers by which a track is stored.
    fn track_numbers(track: &Self::Track) -> (u32, u32)
        ensures { result ≡ rules.track_numbers track.now };

    /// The track that is stored as these two numbers.
    fn track_of(first: u32, second: u32) -> Self::Track
        ensures { result ≡ rules.track_of first second };

    /// The score of an end; `turn` is the side to move after it.
    fn outcome(end: &Self::End, turn: Side) -> Score
        ensures { result ≡ rules.outcome end.now turn };

    /// The name of an end.
    fn end_name(end: &Self::End) -> EndName
        ensures { result ≡ rules.end_name end.now };

    /// Whether the players of this game may agree on a draw.
    fn has_draw_offers() -> bool
        ensures { result ≡ rules.has_draw_offers };

    /// Whether the side to move may declare a win (the entering-king rule of shogi). Allocates nothing.
    fn can_declare(position: &Self::Position) -> bool
        ensures { result ≡ rules.can_declare position.now };

    /// `Side::First` makes the first move.
    ghost first_starts: { FirstStarts rules };

    /// No game has ended before its first move.
    ghost starts_running: { StartsRunning rules };

    /// A legal move passes the turn to the other side.
    ghost turn_passes: { TurnPasses rules };

    /// The text written for a legal move is read as that move.
    ghost reads_back: { ReadsBack rules };

    /// `is_same_move` is equality of moves.
    ghost same_is: { SameIs rules };

    /// `same_position` of the specification is equality of positions.
    ghost same_position_is: { SamePositionIs rules };

    /// Every game has ended at the ply limit.
    ghost ends_at_limit: { EndsAtLimit rules };

    /// The text written for a position that is reachable from the start denotes it.
    ghost writes_positions: { WritesPositions rules StandsFor };

    /// A text denotes at most one position.
    ghost stands_for_one: { StandsForOne StandsFor };

    /// Positions that are reachable from the start are equal if their texts are.
    ghost texts_tell_positions: { TextsTellPositions rules };

    /// A line's track determines its end.
    ghost tracks_tell_ends: { TracksTellEnds rules };

    /// `track_of` inverts `track_numbers`.
    ghost numbers_give_tracks: { NumbersGiveTracks rules };

    /// Any two numbers are the numbers of a track.
    ghost tracks_give_numbers: { TracksGiveNumbers rules };

    /// Neither number of a track exceeds the number of plies by more than one.
    ghost numbers_are_few: { NumbersAreFew rules };
}
