//! Rulings of the arbiter on a game, and the verdicts that they give.

ghost use Rattle.std.specs.Prelude.{◌≡◌, ◌≢◌, ◌∷◌, [], IfNone, IfSome, map};
ghost use Rattle.squares.specs.declared.sides.Score.{Score};
ghost use Rattle.squares.specs.declared.sides.Side.{Side};
ghost use Rattle.squares.specs.Sides.{score_text};
ghost use Rattle.club_requests.specs.Rulings.{IsRulingIn, has_grant_time, is_grant, same_ruling, side_text};
ghost use Rattle.club_requests.specs.Rulings.{is_verdict, verdict_in, verdict_score, verdict_text};
ghost use Rattle.club_requests.specs.declared.rulings.Ruling.{Ruling};

use crate::values::is_grant_time;
use squares::{Score, Side};
use std::fmt;

/// What the arbiter decides on a game.
#[derive(Clone, Copy, Debug, PartialEq, Eq)]
pub enum Ruling {
    /// A side has more time, in seconds.
    Grant { side: Side, seconds: u64 },
    /// The game ends with this score.
    Award(Score),
    /// The game ends and does not count.
    Void,
}

/// The end of a game by the arbiter.
#[derive(Clone, Copy, Debug, PartialEq, Eq)]
pub enum Verdict {
    /// The game ended with this score.
    Awarded(Score),
    /// The game does not count.
    Voided,
}

// The side that a ruling names.
fn side_in(text: &str) -> Option<Side>
    ensures some { IfSome result (λ side. text.now ≡ side_text side) }
    ensures none { IfNone result ((side : Side) → text.now ≢ side_text side) }
{
    match text {
        "first" => Some(Side::First),
        "second" => Some(Side::Second),
        _ => None,
    }
}

// The score that a ruling names.
fn score_in(text: &str) -> Option<Score>
    ensures some { IfSome result (λ score. text.now ≡ score_text score) }
    ensures none { IfNone result ((score : Score) → text.now ≢ score_text score) }
{
    match text {
        "2-0" => Some(Score::FirstWins),
        "1-1" => Some(Score::Draw),
        "0-2" => Some(Score::SecondWins),
        _ => None,
    }
}

// The ruling of one word.
fn ruling_of_one(kind: &str) -> Option<Ruling>
    ensures some { IfSome result (IsRulingIn (kind.now ∷ [])) }
    ensures none { IfNone result ((ruling : Ruling) → ¬ (IsRulingIn (kind.now ∷ []) ruling)) }
{
    match kind {
        "void" => Some(Ruling::Void),
        _ => None,
    }
}

// The ruling of two words.
fn ruling_of_two(kind: &str, score: &str) -> Option<Ruling>
    ensures some { IfSome result (IsRulingIn (kind.now ∷ score.now ∷ [])) }
    ensures none { IfNone result ((ruling : Ruling) → ¬ (IsRulingIn (kind.now ∷ score.now ∷ []) ruling)) }
{
    if kind != "award" {
        return None;
    }
    match score_in(score) {
        Some(score) => Some(Ruling::Award(score)),
        None => None,
    }
}

// The ruling of three words.
fn ruling_of_three(kind: &str, side: &str, seconds: &str) -> Option<Ruling>
    ensures some { IfSome result (IsRulingIn (kind.now ∷ side.now ∷ seconds.now ∷ [])) }
    ensures none { IfNone result ((ruling : Ruling) →
        ¬ (IsRulingIn (kind.now ∷ side.now ∷ seconds.now ∷ []) ruling)) }
{
    if kind != "grant" {
        return None;
    }
    let side = match side_in(side) {
        Some(side) => side,
        None => return None,
    };
    match seconds.parse::<u64>() {
        Ok(seconds) => Some(Ruling::Grant { side, seconds }),
        Err(_) => None,
    }
}

impl Ruling {
    /// Parses the words of a ruling, those that it is written as: `grant first SECONDS`, `grant second SECONDS`,
    /// `award SCORE` or `void`. `None` if they are no ruling.
    pub fn parse(words: &[&str]) -> Option<Ruling>
        ensures some { IfSome result (IsRulingIn (map (λ word. word.now) words.now)) }
        ensures none { IfNone result ((ruling : Ruling) →
            ¬ (IsRulingIn (map (λ word. word.now) words.now) ruling)) }
    {
        match words {
            [kind] => ruling_of_one(kind),
            [kind, score] => ruling_of_two(kind, score),
            [kind, side, seconds] => ruling_of_three(kind, side, seconds),
            _ => None,
        }
    }

    /// Whether both rulings decide the same.
    pub fn is_same(self, other: Ruling) -> bool
        ensures { result ≡ same_ruling self other }
    {
        self == other
    }

    /// Whether the ruling grants time.
    pub fn is_grant(self) -> bool
        ensures { result ≡ is_grant self }
    {
        match self {
            Ruling::Grant {
                side: _,
                seconds: _,
            } => true,
            Ruling::Award(_) => false,
            Ruling::Void => false,
        }
    }

    /// Whether the time that the ruling grants, if any, is within its limits.
    pub fn has_grant_time(self) -> bool
        ensures { result ≡ has_grant_time self }
    {
        match self {
            Ruling::Grant { side: _, seconds } => is_grant_time(seconds),
            Ruling::Award(_) => true,
            Ruling::Void => true,
        }
    }

    /// The end that the ruling gives to the game; `None` for a grant.
    pub fn verdict(self) -> Option<Verdict>
        ensures { result ≡ verdict_in self }
    {
        match self {
            Ruling::Grant {
                side: _,
                seconds: _,
            } => None,
            Ruling::Award(score) => Some(Verdict::Awarded(score)),
            Ruling::Void => Some(Verdict::Voided),
        }
    }
}

impl Verdict {
    /// The name of the end, as it is printed and stored.
    pub fn name(self) -> &'static str
        ensures { result.now ≡ verdict_text self }
    {
        match self {
            Verdict::Awarded(_) => "Awarded",
            Verdict::Voided => "Void",
        }
    }

    /// The score of the game; `None` if the game does not count.
    pub fn score(self) -> Option<Score>
        ensures { result ≡ verdict_score self }
    {
        match self {
            Verdict::Awarded(score) => Some(score),
            Verdict::Voided => None,
        }
    }
}

/// The side as a ruling writes it: `first` or `second`.
pub fn side_text(side: Side) -> &'static str
    ensures { result.now ≡ side_text side }
{
    match side {
        Side::First => "first",
        Side::Second => "second",
    }
}

/// The verdicts; the names do not depend on the score.
const VERDICTS: [Verdict; 2] = [Verdict::Awarded(Score::Draw), Verdict::Voided];

/// Whether the end with this name is a verdict.
pub fn is_verdict(name: &str) -> bool
    ensures { result ≡ is_verdict name.now }
{
    VERDICTS.iter().any(|verdict| verdict.name() == name)
}

/// Writes the ruling as the command line reads it: `grant first 86400`, `award 2-0` or `void`.
impl fmt::Display for Ruling {
    ghost use Rattle.std.specs.Prelude.{Some};
    ghost use Rattle.club_requests.specs.Rulings.{ruling_text};

    ghost output = { λ ruling. Some (ruling_text ruling) };

    fn fmt<W: fmt::Write>(&self, f: &mut fmt::Formatter<W>) -> fmt::Result {
        match self {
            Ruling::Grant { side, seconds } => {
                let side = side_text(*side);
                write!(f, "grant {side} {seconds}")
            }
            Ruling::Award(score) => write!(f, "award {score}"),
            Ruling::Void => write!(f, "void"),
        }
    }
}
