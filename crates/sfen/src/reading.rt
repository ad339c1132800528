//! Reader of positions as SFEN.
ghost use Rattle.std.specs.Prelude.{◌≡◌, ◌↔◌, ◌<◌, ◌+◌, IsTrue, IfOk, IfErr, Some, None, true, false};
ghost use Rattle.sfen.specs.internal.Places.{IsSane};
ghost use Rattle.sfen.specs.internal.Reading.{holding, act, take_byte, run, beginning, StopsAt, Takes};
ghost use Rattle.squares.specs.internal.ShogiSets.{in_play, set_size};
ghost use Rattle.sfen.specs.internal.SfenGrammar.{IsSfenText, IsRefused};

use crate::faults::SfenFault;
use crate::places::{Action, SfenState, next, number_at_end};
use crate::signs::sign_of;
use squares::{Hand, HandKind, Hands, SBoard, SPos, Side};

// The state of the reader after a prefix of a text.
#[derive(Drop)]
struct Reading {
    place: SfenState,
    board: SBoard,
    hands: Hands,
    turn: Side,
}

// Adds pieces to a hand; counts saturate at 255.
fn holding(hands: Hands, side: Side, kind: HandKind, count: u8) -> Hands
    ensures { result ≡ holding side kind count hands }
{
    let mut more = hands;
    match side {
        Side::First => {
            let total = hands.first.count(kind).saturating_add(count);
            more.first = hands.first.with_count(kind, total);
        }
        Side::Second => {
            let total = hands.second.count(kind).saturating_add(count);
            more.second = hands.second.with_count(kind, total);
        }
    }
    more
}

impl Reading {
    // The state before the first byte.
    fn new() -> Reading
        ensures { result ≡ beginning }
    {
        Reading {
            place: SfenState::Rank { rank: 1, left: 9 },
            board: SBoard::empty(),
            hands: Hands {
                first: Hand::default(),
                second: Hand::default(),
            },
            turn: Side::First,
        }
    }

    // Applies the effect of a byte.
    fn act(&mut self, action: Action)
        ensures { self.new ≡ act action self.old }
    {
        match action {
            Action::Pass => {}
            Action::Put(square, piece) => self.board.put(square, piece),
            Action::Move(side) => self.turn = side,
            Action::Hold(side, kind, count) => {
                self.hands = holding(self.hands, side, kind, count)
            }
        }
    }

    // Reads one more byte; returns whether a text may continue with it.
    fn take(&mut self, byte: u8) -> bool
        requires { IsSane self.old.place }
        ensures { Takes result self.old byte self.new }
    {
        match next(self.place, sign_of(byte)) {
            None => false,
            Some((place, action)) => {
                self.act(action);
                self.place = place;
                true
            }
        }
    }
}

// Reads a whole text; the error is the offset of the first byte that cannot follow.
fn read_through(bytes: &[u8]) -> Result<Reading, usize>
    ensures read { IfOk result (λ reading. run take_byte beginning bytes.now ≡ Some reading) }
    ensures stopped { IfErr result (λ offset. StopsAt bytes.now offset) }
{
    let mut reading = Reading::new();
    for (i, byte) in bytes.iter().enumerate() {
        if !reading.take(*byte) {
            return Err(i);
        }
    }
    Ok(reading)
}

// Whether the board and the hands have more pieces of a kind than a shogi set.
fn exceeds_set(board: &SBoard, hands: Hands, kind: HandKind) -> bool
    ensures { IsTrue result ↔ (set_size kind < in_play kind board.now hands) }
{
    let size = match kind {
        HandKind::Rook | HandKind::Bishop => 2,
        HandKind::Gold | HandKind::Silver | HandKind::Knight | HandKind::Lance => 4,
        HandKind::Pawn => 18,
    };
    let held = usize::from(hands.first.count(kind)) + usize::from(hands.second.count(kind));
    size < board.count_kind(kind) + held
}

// Whether the board and the hands have more pieces of any kind than a shogi set.
fn exceeds_sets(board: &SBoard, hands: Hands) -> bool
    ensures { IsTrue result ↔ ((kind : HandKind) × (set_size kind < in_play kind board.now hands)) }
{
    for kind in HandKind::ALL {
        if exceeds_set(board, hands, kind) {
            return true;
        }
    }
    false
}

/// Reads a position and the move number from an SFEN text, such as `k8/9/9/9/9/9/9/9/K8 b 2P 1`. A missing move number
/// is 1. A hand may list its pieces in any order, and a kind more than once.
///
/// # Errors
///
/// - `SfenFault::BadText` for a syntax error.
/// - `SfenFault::TooManyPieces` if the pieces exceed a shogi set.
/// - `SfenFault::Kings` if a side has not exactly one king.
pub fn read(text: &str) -> Result<(SPos, u16), SfenFault>
    ensures read { IfOk result (λ made. IsSfenText text.now made.0 made.1) }
    ensures fault { IfErr result (λ fault. IsRefused text.now fault) }
{
    let reading = match read_through(text.as_bytes()) {
        Ok(reading) => reading,
        Err(offset) => return Err(SfenFault::BadText(offset)),
    };
    let number = match number_at_end(reading.place) {
        Some(number) => number,
        None => return Err(SfenFault::BadText(text.len())),
    };
    if exceeds_sets(&reading.board, reading.hands) {
        return Err(SfenFault::TooManyPieces);
    }
    match SPos::new(reading.board, reading.hands, reading.turn) {
        Some(position) => Ok((position, number)),
        None => Err(SfenFault::Kings),
    }
}
