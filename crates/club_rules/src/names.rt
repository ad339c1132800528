//! The two games, and the names of the ends that their rules give.

ghost use Rattle.std.specs.Prelude.{◌≡◌};
ghost use Rattle.club_rules.specs.EndName.{end_text};

use std::fmt;

/// A game that the club plays.
#[derive(Clone, Copy, Debug, PartialEq, Eq)]
pub enum GameKind {
    Draughts,
    Shogi,
}

/// The name of an end by the rules, as it is printed and stored.
#[derive(Clone, Copy, Debug, PartialEq, Eq)]
pub enum EndName {
    /// The side to move has no legal move and loses.
    NoMove,
    /// Draughts: the position occurs for the third time; a draw.
    Repetition,
    /// Draughts: the last 50 plies were all king moves without a capture; a draw.
    KingMoves,
    /// Draughts: 33 successive positions with three pieces, at least one of them a king, against a lone king; a draw.
    ThreeToOne,
    /// Draughts: 11 successive positions with a king, or two pieces with at least one king, against a lone king; a
    /// draw.
    TwoToOne,
    /// 600 plies have been played; a draw.
    PlyLimit,
    /// Shogi: the position occurs for the fourth time by one side's perpetual check, and that side loses.
    PerpetualCheck,
    /// Shogi: the position occurs for the fourth time; a draw.
    Fourfold,
}

impl EndName {
    /// The name as it is written, such as `NoMove`.
    pub fn name(self) -> &'static str
        ensures { result.now ≡ end_text self }
    {
        match self {
            EndName::NoMove => "NoMove",
            EndName::Repetition => "Repetition",
            EndName::KingMoves => "KingMoves",
            EndName::ThreeToOne => "ThreeToOne",
            EndName::TwoToOne => "TwoToOne",
            EndName::PlyLimit => "PlyLimit",
            EndName::PerpetualCheck => "PerpetualCheck",
            EndName::Fourfold => "Fourfold",
        }
    }
}

impl fmt::Display for EndName {
    ghost use Rattle.std.specs.Prelude.{Some};

    ghost output = { λ end. Some (end_text end) };

    fn fmt<W: fmt::Write>(&self, f: &mut fmt::Formatter<W>) -> fmt::Result {
        f.write_str(self.name())
    }
}
