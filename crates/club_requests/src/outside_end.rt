//! Ends of games for reasons outside their rules: their names, their scores and how they are read.

ghost use Rattle.std.specs.Prelude.{◌≡◌, Some, IfSome};
ghost use Rattle.squares.specs.declared.sides.Score.{Score};
ghost use Rattle.club_requests.specs.declared.outside_end.OutsideEnd.{OutsideEnd};
ghost use Rattle.club_requests.specs.declared.outside_end.OutsideEnd.TheVariants.{Recorded};
ghost use Rattle.club_requests.specs.OutsideEnd.{outside_text, outside_score};
ghost use Rattle.club_requests.specs.internal.OutsideEnd.{outside_allowed};
ghost use Rattle.club_requests.specs.OutsideEnd.{is_outside};

use squares::{Score, Side};
use std::fmt;

/// The reason why a game ended, if it is not one of the game's rules.
#[derive(Clone, Copy, Debug, PartialEq, Eq)]
pub enum OutsideEnd {
    /// The side to move resigned.
    Resigned,
    /// The players agreed on a draw.
    Agreed,
    /// The side to move exceeded the time limit.
    Time,
    /// The side to move declared a win by entering king.
    Declared,
    /// An imported record states this score.
    Recorded(Score),
}

impl OutsideEnd {
    /// The name of the end, as it is printed and stored.
    pub fn name(self) -> &'static str
        ensures { result.now ≡ outside_text self }
    {
        match self {
            OutsideEnd::Resigned => "Resigned",
            OutsideEnd::Agreed => "Agreed",
            OutsideEnd::Time => "Time",
            OutsideEnd::Declared => "Declared",
            OutsideEnd::Recorded(_) => "Recorded",
        }
    }

    /// The score of a game that ends this way, given the side to move.
    pub fn score(self, turn: Side) -> Score
        ensures { result ≡ outside_score self turn }
    {
        match self {
            OutsideEnd::Resigned => Score::lost_by(turn),
            OutsideEnd::Agreed => Score::Draw,
            OutsideEnd::Time => Score::lost_by(turn),
            OutsideEnd::Declared => Score::lost_by(turn.other()),
            OutsideEnd::Recorded(score) => score,
        }
    }

    /// Whether a game can end this way: agreement needs a draw offer, a declaration the right to declare, and the score
    /// of a record a game that was imported.
    pub fn is_allowed(self, offered: bool, declarable: bool, imported: bool) -> bool
        ensures { result ≡ outside_allowed offered declarable imported self }
    {
        match self {
            OutsideEnd::Resigned => true,
            OutsideEnd::Agreed => offered,
            OutsideEnd::Time => true,
            OutsideEnd::Declared => declarable,
            OutsideEnd::Recorded(_) => imported,
        }
    }

    /// Parses the name of an end; a recorded end has the given score. None if it is no such name, or a recorded end has
    /// no score.
    pub fn parse(name: &str, score: Option<Score>) -> Option<OutsideEnd>
        ensures found { (end : OutsideEnd) → name.now ≡ outside_text end → ((s : Score) → end ≡ Recorded s →
            score ≡ Some s) → result ≡ Some end }
        ensures only { IfSome result (λ end. (name.now ≡ outside_text end) ×
            ((s : Score) → end ≡ Recorded s → score ≡ Some s)) }
    {
        match name {
            "Resigned" => Some(OutsideEnd::Resigned),
            "Agreed" => Some(OutsideEnd::Agreed),
            "Time" => Some(OutsideEnd::Time),
            "Declared" => Some(OutsideEnd::Declared),
            "Recorded" => match score {
                Some(score) => Some(OutsideEnd::Recorded(score)),
                None => None,
            },
            _ => None,
        }
    }
}

/// The ends outside the rules; the names do not depend on the score of a record.
const OUTSIDE_ENDS: [OutsideEnd; 5] = [
    OutsideEnd::Resigned,
    OutsideEnd::Agreed,
    OutsideEnd::Time,
    OutsideEnd::Declared,
    OutsideEnd::Recorded(Score::Draw),
];

/// Whether the end with this name is one that no move makes.
pub fn is_outside(name: &str) -> bool
    ensures { result ≡ is_outside name.now }
{
    OUTSIDE_ENDS.iter().any(|end| end.name() == name)
}

/// Writes the name of the end: `Agreed`.
impl fmt::Display for OutsideEnd {
    ghost use Rattle.std.specs.Prelude.{Some};
    ghost use Rattle.club_requests.specs.OutsideEnd.{outside_text};

    ghost output = { λ end. Some (outside_text end) };

    fn fmt<W: fmt::Write>(&self, f: &mut fmt::Formatter<W>) -> fmt::Result {
        f.write_str(self.name())
    }
}
