//! The refusals of commands.

ghost use Rattle.std.specs.Prelude.{◌≡◌};
ghost use Rattle.club_requests.specs.Refusal.{refusal_number, refusal_name, refusal_text};

use club_rules::{MoveRefusal, RecordRefusal};
use std::fmt;

/// The reason why a command is refused. If several apply, the first in the order below is given.
///
/// The check for a repeat of an accepted command comes after `NotInThisGame` and before `GameOver`. Refusals of a
/// move's text, of a move or of a record come last. A new key for an unknown member is `BadValue` before that check.
#[derive(Clone, Copy, Debug, PartialEq, Eq)]
pub enum Refusal {
    /// No member has the key.
    UnknownKey,
    /// Only the officer, or only a player, may give this command.
    NotAllowed,
    /// No event has the name.
    UnknownEvent,
    /// No game has the number.
    UnknownGame,
    /// The caller has no challenge of this number, or the challenge is not addressed to the caller.
    UnknownChallenge,
    /// The member plays neither side of the game.
    NotAPlayer,
    /// The rules of this game have no draw by agreement.
    NotInThisGame,
    /// The game has ended.
    GameOver,
    /// The ply is 0 or greater than the next one, or a draw offer, acceptance or declaration does not name the next
    /// ply.
    WrongPly,
    /// The command contradicts what is stored: another move at this ply, another game, challenge, ruling or key of a
    /// member under this key or number, a closed challenge, or a draw offer of the opponent.
    Conflict,
    /// It is the opponent's turn; for a claim of time it is the caller's own.
    NotYourTurn,
    /// The side to move has no time left.
    OutOfTime,
    /// The side to move still has time left.
    TimeLeft,
    /// The opponent has not offered a draw at this ply.
    NoOffer,
    /// The name of a new member or event is in use, or a member has or had the key.
    NameTaken,
    /// A value is outside its limits, a player is unknown or named twice, or the text has no such record.
    BadValue,
    /// The club has reached its limit of members, events or games, the member that of keys, or the game that of
    /// rulings.
    Full,
    /// The event has no declarations, or the position does not allow the side to move to declare a win.
    NotDeclarable,
    /// The event is closed to challenges.
    EventClosed,
    /// The rules of the game refuse the move's text or the move at this ply.
    Play { ply: u32, refusal: MoveRefusal },
    /// The record of an import is refused.
    Record(RecordRefusal),
}

impl Refusal {
    /// The refusal's number: 50 to 68, or the number of the move's or the record's refusal.
    pub fn number(self) -> u8
        ensures { result ≡ refusal_number self }
    {
        match self {
            Refusal::UnknownKey => 50,
            Refusal::NotAllowed => 51,
            Refusal::UnknownEvent => 52,
            Refusal::UnknownGame => 53,
            Refusal::UnknownChallenge => 54,
            Refusal::NotAPlayer => 55,
            Refusal::NotInThisGame => 63,
            Refusal::GameOver => 56,
            Refusal::WrongPly => 57,
            Refusal::Conflict => 58,
            Refusal::NotYourTurn => 59,
            Refusal::OutOfTime => 60,
            Refusal::TimeLeft => 61,
            Refusal::NoOffer => 62,
            Refusal::NameTaken => 64,
            Refusal::BadValue => 65,
            Refusal::Full => 66,
            Refusal::NotDeclarable => 67,
            Refusal::EventClosed => 68,
            Refusal::Play { ply: _, refusal } => refusal.number(),
            Refusal::Record(refusal) => refusal.number(),
        }
    }

    /// The refusal's name, without its parameters.
    pub fn name(self) -> &'static str
        ensures { result.now ≡ refusal_name self }
    {
        match self {
            Refusal::UnknownKey => "UnknownKey",
            Refusal::NotAllowed => "NotAllowed",
            Refusal::UnknownEvent => "UnknownEvent",
            Refusal::UnknownGame => "UnknownGame",
            Refusal::UnknownChallenge => "UnknownChallenge",
            Refusal::NotAPlayer => "NotAPlayer",
            Refusal::NotInThisGame => "NotInThisGame",
            Refusal::GameOver => "GameOver",
            Refusal::WrongPly => "WrongPly",
            Refusal::Conflict => "Conflict",
            Refusal::NotYourTurn => "NotYourTurn",
            Refusal::OutOfTime => "OutOfTime",
            Refusal::TimeLeft => "TimeLeft",
            Refusal::NoOffer => "NoOffer",
            Refusal::NameTaken => "NameTaken",
            Refusal::BadValue => "BadValue",
            Refusal::Full => "Full",
            Refusal::NotDeclarable => "NotDeclarable",
            Refusal::EventClosed => "EventClosed",
            Refusal::Play { ply: _, refusal } => refusal.name(),
            Refusal::Record(refusal) => refusal.name(),
        }
    }
}

/// Writes the number, the name and the parameters, separated by spaces: `58 Conflict`, `20 BadText 2` (a byte offset),
/// or `21 Ambiguous 5` (the ply of a text that fits several captures).
impl fmt::Display for Refusal {
    ghost use Rattle.std.specs.Prelude.{Some};

    ghost output = { λ refusal. Some (refusal_text refusal) };

    fn fmt<W: fmt::Write>(&self, f: &mut fmt::Formatter<W>) -> fmt::Result {
        match self {
            Refusal::Record(refusal) => return write!(f, "{refusal}"),
            _ => {}
        }
        let number = self.number();
        let name = self.name();
        write!(f, "{number} {name}")?;
        match self {
            Refusal::Play {
                ply: _,
                refusal: MoveRefusal::BadText(_, offset),
            } => write!(f, " {offset}"),
            Refusal::Play {
                ply,
                refusal: MoveRefusal::Ambiguous,
            } => write!(f, " {ply}"),
            _ => Ok(()),
        }
    }
}
