//! The reasons why the text of a move, or a move, is refused.

ghost use Rattle.std.specs.Prelude.{◌≡◌};
ghost use Rattle.club_rules.specs.MoveRefusal.{no_such_move_number, bad_text_number, move_refusal_number};
ghost use Rattle.club_rules.specs.MoveRefusal.{move_refusal_name};
ghost use Rattle.club_rules.specs.internal.MoveRefusal.{move_refusal_text};

use crate::names::GameKind;
use std::fmt;

/// The reason why the text of a move, or a move, is refused, in draughts or in shogi.
#[derive(Clone, Copy, Debug, PartialEq, Eq)]
pub enum MoveRefusal {
    /// No piece of the side to move can make this move. Each game has its own number for it.
    NoSuchMove(GameKind),
    /// Draughts: the move captures nothing although a capture exists.
    MustCapture,
    /// Draughts: the capture takes fewer pieces than another would.
    NotLongest,
    /// Shogi: the piece is not in hand.
    NotInHand,
    /// Shogi: the piece could never move again unless it promotes.
    MustPromote,
    /// Shogi: the dropped piece could never move.
    DeadDrop,
    /// Shogi: a pawn is dropped on a file that has an unpromoted pawn of the same side.
    TwoPawns,
    /// Shogi: the side's own king would be in check.
    KingAttacked,
    /// Shogi: a dropped pawn gives mate.
    DropMate,
    /// Syntax error. The longest prefix that can begin a move's text has this many bytes.
    BadText(GameKind, usize),
    /// Draughts: two or more legal captures match the text.
    Ambiguous,
}

fn no_such_move_number(game: GameKind) -> u8
    ensures { result ≡ no_such_move_number game }
{
    match game {
        GameKind::Draughts => 10,
        GameKind::Shogi => 13,
    }
}

fn bad_text_number(game: GameKind) -> u8
    ensures { result ≡ bad_text_number game }
{
    match game {
        GameKind::Draughts => 20,
        GameKind::Shogi => 30,
    }
}

impl MoveRefusal {
    /// The number of the refusal: 10 to 12, 20 and 21 in draughts, 13 to 19 and 30 in shogi.
    pub fn number(self) -> u8
        ensures { result ≡ move_refusal_number self }
    {
        match self {
            MoveRefusal::NoSuchMove(game) => no_such_move_number(game),
            MoveRefusal::MustCapture => 11,
            MoveRefusal::NotLongest => 12,
            MoveRefusal::NotInHand => 14,
            MoveRefusal::MustPromote => 15,
            MoveRefusal::DeadDrop => 16,
            MoveRefusal::TwoPawns => 17,
            MoveRefusal::KingAttacked => 18,
            MoveRefusal::DropMate => 19,
            MoveRefusal::BadText(game, _) => bad_text_number(game),
            MoveRefusal::Ambiguous => 21,
        }
    }

    /// The name of the refusal, without its offset.
    pub fn name(self) -> &'static str
        ensures { result.now ≡ move_refusal_name self }
    {
        match self {
            MoveRefusal::NoSuchMove(_) => "NoSuchMove",
            MoveRefusal::MustCapture => "MustCapture",
            MoveRefusal::NotLongest => "NotLongest",
            MoveRefusal::NotInHand => "NotInHand",
            MoveRefusal::MustPromote => "MustPromote",
            MoveRefusal::DeadDrop => "DeadDrop",
            MoveRefusal::TwoPawns => "TwoPawns",
            MoveRefusal::KingAttacked => "KingAttacked",
            MoveRefusal::DropMate => "DropMate",
            MoveRefusal::BadText(_, _) => "BadText",
            MoveRefusal::Ambiguous => "Ambiguous",
        }
    }
}

/// Writes the number, the name and the offset if any, separated by spaces: `20 BadText 2`.
impl fmt::Display for MoveRefusal {
    ghost use Rattle.std.specs.Prelude.{Some};

    ghost output = { λ refusal. Some (move_refusal_text refusal) };

    fn fmt<W: fmt::Write>(&self, f: &mut fmt::Formatter<W>) -> fmt::Result {
        let number = self.number();
        let name = self.name();
        write!(f, "{number} {name}")?;
        match self {
            MoveRefusal::BadText(_, offset) => write!(f, " {offset}"),
            _ => Ok(()),
        }
    }
}
