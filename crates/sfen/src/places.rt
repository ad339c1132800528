//! The state machine of the SFEN reader: its states, and the transition for each byte.
ghost use Rattle.std.specs.Prelude.{◌≡◌, ◌≤◌, IfSome};
ghost use Rattle.sfen.specs.internal.Signs.{IsSaneSign};
ghost use Rattle.sfen.specs.internal.Places as spec;

use crate::signs::Sign;
use squares::{HandKind, Kind, Role, SPiece, Side, Ssq};

/// A state of the reader.
#[derive(Clone, Copy)]
pub enum SfenState {
    /// In a rank, 1 to 9, with this many files left to fill.
    Rank { rank: u8, left: u8 },
    /// In a rank, after a `+`.
    Promoted { rank: u8, left: u8 },
    /// Before the letter of the side to move.
    Turn,
    /// After the letter of the side to move.
    AfterTurn,
    /// Before the hands.
    Hands,
    /// After a piece in the hands.
    Held,
    /// After a leading zero of a count.
    AfterZero,
    /// After the first digit of a count, not a zero.
    OneDigit(u8),
    /// After two digits of a count.
    TwoDigits(u8),
    /// After the `-` of empty hands.
    NoHands,
    /// Before the move number.
    Number,
    /// After the digits of a move number.
    Digits(u16),
}

/// The effect of a byte on the position.
#[derive(Clone, Copy)]
pub enum Action {
    Pass,
    Put(Ssq, SPiece),
    Move(Side),
    Hold(Side, HandKind, u8),
}

/// A transition: the next state, and the effect on the position.
pub type Step = (SfenState, Action);

// The square of a file and a rank, if it is on the board.
fn square_at(file: u8, rank: u8) -> Option<Ssq>
    ensures value { result ≡ spec.square_at file rank }
    ensures file { IfSome result (λ _. 1 ≤ file) }
{
    Ssq::new(file, rank)
}

// Puts a piece on the next square of a rank.
fn placed(rank: u8, left: u8, piece: SPiece) -> Option<Step>
    ensures { result ≡ spec.placed rank left piece }
{
    match square_at(left, rank) {
        None => None,
        Some(square) => Some((
            SfenState::Rank {
                rank,
                left: left - 1,
            },
            Action::Put(square, piece),
        )),
    }
}

fn in_rank(rank: u8, left: u8, sign: Sign) -> Option<Step>
    ensures { result ≡ spec.in_rank rank left sign }
{
    match sign {
        Sign::Digit(n) if n <= left => Some((
            SfenState::Rank {
                rank,
                left: left - n,
            },
            Action::Pass,
        )),
        Sign::Piece(side, kind) => placed(
            rank,
            left,
            SPiece {
                side,
                role: kind.role(),
            },
        ),
        Sign::Plus if left > 0 => Some((SfenState::Promoted { rank, left }, Action::Pass)),
        Sign::Slash if left == 0 && rank < 9 => Some((
            SfenState::Rank {
                rank: rank + 1,
                left: 9,
            },
            Action::Pass,
        )),
        Sign::Blank if left == 0 && rank == 9 => Some((SfenState::Turn, Action::Pass)),
        _ => None,
    }
}

fn promoted(rank: u8, left: u8, side: Side, role: Option<Role>) -> Option<Step>
    ensures { result ≡ spec.promoted rank left side role }
{
    match role {
        None => None,
        Some(role) => placed(rank, left, SPiece { side, role }),
    }
}

fn after_plus(rank: u8, left: u8, sign: Sign) -> Option<Step>
    ensures { result ≡ spec.after_plus rank left sign }
{
    match sign {
        Sign::Piece(side, kind) => promoted(rank, left, side, kind.promoted_role()),
        _ => None,
    }
}

fn at_turn(sign: Sign) -> Option<Step>
    ensures { result ≡ spec.at_turn sign }
{
    match sign {
        Sign::Piece(Side::Second, Kind::Bishop) => {
            Some((SfenState::AfterTurn, Action::Move(Side::First)))
        }
        Sign::White => Some((SfenState::AfterTurn, Action::Move(Side::Second))),
        _ => None,
    }
}

// A space, followed by the state `next`.
fn past_blank(next: SfenState, sign: Sign) -> Option<Step>
    ensures { result ≡ spec.past_blank next sign }
{
    match sign {
        Sign::Blank => Some((next, Action::Pass)),
        _ => None,
    }
}

fn hold(count: u8, side: Side, kind: Option<HandKind>) -> Option<Step>
    ensures { result ≡ spec.hold count side kind }
{
    match kind {
        None => None,
        Some(kind) => Some((SfenState::Held, Action::Hold(side, kind, count))),
    }
}

// The first byte of an item of the hands.
fn at_item(sign: Sign) -> Option<Step>
    ensures { result ≡ spec.at_item sign }
{
    match sign {
        Sign::Zero => Some((SfenState::AfterZero, Action::Pass)),
        Sign::Digit(n) => Some((SfenState::OneDigit(n), Action::Pass)),
        Sign::Piece(side, kind) => hold(1, side, kind.to_hand_kind()),
        _ => None,
    }
}

fn at_hands(sign: Sign) -> Option<Step>
    ensures { result ≡ spec.at_hands sign }
{
    match sign {
        Sign::Minus => Some((SfenState::NoHands, Action::Pass)),
        _ => at_item(sign),
    }
}

fn at_held(sign: Sign) -> Option<Step>
    ensures { result ≡ spec.at_held sign }
{
    match sign {
        Sign::Blank => Some((SfenState::Number, Action::Pass)),
        _ => at_item(sign),
    }
}

fn after_zero(sign: Sign) -> Option<Step>
    ensures { result ≡ spec.after_zero sign }
{
    match sign {
        Sign::Digit(n) => Some((SfenState::TwoDigits(n), Action::Pass)),
        _ => None,
    }
}

fn one_digit(digit: u8, sign: Sign) -> Option<Step>
    requires digit { digit ≤ 9 }
    requires sign { IsSaneSign sign }
    ensures { result ≡ spec.one_digit digit sign }
{
    match sign {
        Sign::Zero => Some((SfenState::TwoDigits(10 * digit), Action::Pass)),
        Sign::Digit(n) => Some((SfenState::TwoDigits(10 * digit + n), Action::Pass)),
        Sign::Piece(side, kind) => hold(digit, side, kind.to_hand_kind()),
        _ => None,
    }
}

fn two_digits(count: u8, sign: Sign) -> Option<Step>
    ensures { result ≡ spec.two_digits count sign }
{
    match sign {
        Sign::Piece(side, kind) => hold(count, side, kind.to_hand_kind()),
        _ => None,
    }
}

fn at_number(sign: Sign) -> Option<Step>
    ensures { result ≡ spec.at_number sign }
{
    match sign {
        Sign::Digit(n) => Some((SfenState::Digits(u16::from(n)), Action::Pass)),
        _ => None,
    }
}

// One more digit of a move number, which has at most four.
fn one_more(number: u16, digit: u8) -> Option<Step>
    ensures { result ≡ spec.one_more number digit }
{
    if number < 1000 {
        return Some((
            SfenState::Digits(10 * number + u16::from(digit)),
            Action::Pass,
        ));
    }
    None
}

fn in_number(number: u16, sign: Sign) -> Option<Step>
    ensures { result ≡ spec.in_number number sign }
{
    match sign {
        Sign::Zero => one_more(number, 0),
        Sign::Digit(n) => one_more(number, n),
        _ => None,
    }
}

/// The transition for a byte, or `None` if no SFEN text continues with it.
pub fn next(place: SfenState, sign: Sign) -> Option<Step>
    requires place { spec.IsSane place }
    requires sign { IsSaneSign sign }
    ensures { result ≡ spec.next place sign }
{
    match place {
        SfenState::Rank { rank, left } => in_rank(rank, left, sign),
        SfenState::Promoted { rank, left } => after_plus(rank, left, sign),
        SfenState::Turn => at_turn(sign),
        SfenState::AfterTurn => past_blank(SfenState::Hands, sign),
        SfenState::Hands => at_hands(sign),
        SfenState::Held => at_held(sign),
        SfenState::AfterZero => after_zero(sign),
        SfenState::OneDigit(digit) => one_digit(digit, sign),
        SfenState::TwoDigits(count) => two_digits(count, sign),
        SfenState::NoHands => past_blank(SfenState::Number, sign),
        SfenState::Number => at_number(sign),
        SfenState::Digits(number) => in_number(number, sign),
    }
}

/// The move number if a text may end in this state; 1 if the text has none.
pub fn number_at_end(place: SfenState) -> Option<u16>
    ensures { result ≡ spec.number_at_end place }
{
    match place {
        SfenState::Held | SfenState::NoHands => Some(1),
        SfenState::Digits(number) => Some(number),
        _ => None,
    }
}
