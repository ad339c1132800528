//! The two sides of a game, and its score.

ghost use Rattle.std.specs.Prelude.{◌≡◌};
ghost use Rattle.squares.specs.Sides.{other, loses, score_text};

use std::fmt;

/// A side. First moves first: it is White in draughts and Black in shogi.
#[derive(Clone, Copy, Debug, PartialEq, Eq, PartialOrd, Ord, Hash)]
pub enum Side {
    First,
    Second,
}

impl Side {
    /// The opponent of this side.
    pub fn other(self) -> Side
        ensures { result ≡ other self }
    {
        match self {
            Side::First => Side::Second,
            Side::Second => Side::First,
        }
    }
}

/// The score of a finished game: 2 points for a win, 1 for a draw, 0 for a loss.
#[derive(Clone, Copy, Debug, PartialEq, Eq, PartialOrd, Ord, Hash)]
pub enum Score {
    FirstWins,
    Draw,
    SecondWins,
}

impl Score {
    /// The score if the given side loses.
    pub fn lost_by(side: Side) -> Score
        ensures { result ≡ loses side }
    {
        match side {
            Side::First => Score::SecondWins,
            Side::Second => Score::FirstWins,
        }
    }

    /// The score as text, First's points first: `2-0`, `1-1` or `0-2`.
    pub fn text(self) -> &'static str
        ensures { result.now ≡ score_text self }
    {
        match self {
            Score::FirstWins => "2-0",
            Score::Draw => "1-1",
            Score::SecondWins => "0-2",
        }
    }
}

impl fmt::Display for Score {
    ghost use Rattle.std.specs.Prelude.{Some};

    ghost output = { λ score. Some (score_text score) };

    fn fmt<W: fmt::Write>(&self, f: &mut fmt::Formatter<W>) -> fmt::Result {
        f.write_str(self.text())
    }
}
