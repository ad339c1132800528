//! Answers to commands.

use crate::outside_end::OutsideEnd;
use crate::refusals::Refusal;
use club_rules::EndName;
use squares::Score;
use std::fmt;

/// The answer to a move: its notation, the mover's seconds left after it, the position after it as text, and the end of
/// the game that the rules gave.
#[derive(Debug, Drop)]
pub struct MoveAnswer {
    pub ply: u32,
    pub text: String,
    pub left: u64,
    pub position: String,
    pub end: Option<EndName>,
}

/// The answer to an accepted command. Members, events and games are given by id.
#[derive(Debug, Drop)]
pub enum Answer {
    Member(u32),
    Event(u32),
    Game(u32),
    Moved(MoveAnswer),
    /// A draw was offered at this ply.
    Offered { ply: u32 },
    /// The game ended for a reason outside its rules, with this result.
    Ended { end: OutsideEnd, result: Score },
    /// The number of games that were ended by time.
    Swept { count: u32 },
    /// The caller's challenge with this number was opened.
    ChallengeOpened { number: u32 },
    /// The caller withdrew the challenge.
    ChallengeWithdrawn { number: u32 },
    /// The challenge was refused; the number is the challenger's.
    ChallengeRefused { number: u32 },
    /// The challenge was accepted and started this game; the number is the challenger's.
    ChallengeAccepted { number: u32, game: u32 },
    /// The member was given another key, the later key with this number.
    KeyGiven { number: u64 },
    /// The event was closed to challenges.
    EventClosed,
    /// The arbiter's ruling with this number was given on the game.
    RulingGiven { number: u64 },
}

/// The outcome of a command. A repeat returns the answer of the command that it repeats. Only an accepted command
/// changes the club.
#[derive(Debug, Drop)]
pub enum Outcome {
    Accepted(Answer),
    Repeated(Answer),
    Refused(Refusal),
}

/// Writes the answer.
///
/// - an id: `member 1`, `event 1`, `game 2`
/// - a move: `ply 3 32-28`, or `ply 8 9-4 end Repetition` if it ended the game
/// - a draw offer: `offer ply 5`
/// - an end with its result: `end Agreed 1-1`
/// - a sweep with the number of games ended: `sweep 3`
/// - a challenge with its state: `challenge 3 open`, `challenge 3 accepted game 7`
/// - a later key of a member, by its number: `key 1`
/// - a closed event: `closed`
/// - a ruling on a game, by its number: `ruling 1`
impl fmt::Display for Answer {
    ghost use Rattle.std.specs.Prelude.{Some};
    ghost use Rattle.club_requests.specs.AnswerText.{answer_text};

    ghost output = { λ answer. Some (answer_text answer) };

    fn fmt<W: fmt::Write>(&self, f: &mut fmt::Formatter<W>) -> fmt::Result {
        match self {
            Answer::Member(id) => write!(f, "member {id}"),
            Answer::Event(id) => write!(f, "event {id}"),
            Answer::Game(id) => write!(f, "game {id}"),
            Answer::Moved(moved) => write!(f, "{moved}"),
            Answer::Offered { ply } => write!(f, "offer ply {ply}"),
            Answer::Ended { end, result } => write!(f, "end {end} {result}"),
            Answer::Swept { count } => write!(f, "sweep {count}"),
            Answer::ChallengeOpened { number } => write!(f, "challenge {number} open"),
            Answer::ChallengeWithdrawn { number } => write!(f, "challenge {number} withdrawn"),
            Answer::ChallengeRefused { number } => write!(f, "challenge {number} refused"),
            Answer::ChallengeAccepted { number, game } => {
                write!(f, "challenge {number} accepted game {game}")
            }
            Answer::KeyGiven { number } => write!(f, "key {number}"),
            Answer::EventClosed => write!(f, "closed"),
            Answer::RulingGiven { number } => write!(f, "ruling {number}"),
        }
    }
}

/// Writes the ply, the move and the end that the rules gave: `ply 8 9-4 end Repetition`.
impl fmt::Display for MoveAnswer {
    ghost use Rattle.std.specs.Prelude.{Some};
    ghost use Rattle.club_requests.specs.AnswerText.{moved_text};

    ghost output = { λ moved. Some (moved_text moved) };

    fn fmt<W: fmt::Write>(&self, f: &mut fmt::Formatter<W>) -> fmt::Result {
        let ply = self.ply;
        let text = self.text.as_str();
        match self.end {
            Some(end) => write!(f, "ply {ply} {text} end {end}"),
            None => write!(f, "ply {ply} {text}"),
        }
    }
}

/// Writes the kind of outcome, then the answer or the refusal: `accepted game 2`, `refused 58 Conflict`.
impl fmt::Display for Outcome {
    ghost use Rattle.std.specs.Prelude.{Some};
    ghost use Rattle.club_requests.specs.AnswerText.{outcome_text};

    ghost output = { λ outcome. Some (outcome_text outcome) };

    fn fmt<W: fmt::Write>(&self, f: &mut fmt::Formatter<W>) -> fmt::Result {
        match self {
            Outcome::Accepted(answer) => write!(f, "accepted {answer}"),
            Outcome::Repeated(answer) => write!(f, "repeated {answer}"),
            Outcome::Refused(refusal) => write!(f, "refused {refusal}"),
        }
    }
}
