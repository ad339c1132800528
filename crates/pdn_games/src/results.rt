//! The results that end a game's text.
ghost use Rattle.std.specs.Prelude.{◌≡◌, ◌<◌, length};
ghost use Rattle.std.specs.Str.{bytes_eq};
ghost use Rattle.pdn_games.specs.Results.{word_text, score_of, begins_with, result_at, result_word};

use squares::Score;

/// A result: White's score first, in draughts points or in chess points, or a star for an unfinished game.
#[derive(Clone, Copy, Debug, PartialEq, Eq)]
pub enum ResultWord {
    TwoNil,
    OneOne,
    NilTwo,
    OneNil,
    Halves,
    NilOne,
    Star,
}

impl ResultWord {
    /// All results.
    pub const ALL: [ResultWord; 7] = [
        ResultWord::TwoNil,
        ResultWord::OneOne,
        ResultWord::NilTwo,
        ResultWord::OneNil,
        ResultWord::Halves,
        ResultWord::NilOne,
        ResultWord::Star,
    ];

    /// The text of the result.
    pub fn text(self) -> &'static str
        ensures value { result.now ≡ word_text self }
        ensures some { 0 < length result.now }
    {
        match self {
            ResultWord::TwoNil => "2-0",
            ResultWord::OneOne => "1-1",
            ResultWord::NilTwo => "0-2",
            ResultWord::OneNil => "1-0",
            ResultWord::Halves => "1/2-1/2",
            ResultWord::NilOne => "0-1",
            ResultWord::Star => "*",
        }
    }

    /// The score of the result; `None` for a star.
    pub fn score(self) -> Option<Score>
        ensures { result ≡ score_of self }
    {
        match self {
            ResultWord::TwoNil | ResultWord::OneNil => Some(Score::FirstWins),
            ResultWord::OneOne | ResultWord::Halves => Some(Score::Draw),
            ResultWord::NilTwo | ResultWord::NilOne => Some(Score::SecondWins),
            ResultWord::Star => None,
        }
    }
}

// Whether a text begins with the text of a result.
fn begins_with(text: &[u8], word: ResultWord) -> bool
    ensures { result ≡ begins_with text.now word }
{
    text.starts_with(word.text().as_bytes())
}

// Whether a text is exactly the text of a result.
fn is_written(text: &[u8], word: ResultWord) -> bool
    ensures { result ≡ bytes_eq text.now (word_text word) }
{
    text == word.text().as_bytes()
}

/// The result at the front of a text.
#[tactic(auto, unfolding(crate::specs::Results::result_at))]
pub fn result_at(text: &[u8]) -> Option<ResultWord>
    ensures { result ≡ result_at text.now }
{
    ResultWord::ALL
        .iter()
        .copied()
        .find(|word| begins_with(text, *word))
}

/// The result that a whole text denotes.
#[tactic(auto, unfolding(crate::specs::Results::result_word))]
pub fn result_word(text: &[u8]) -> Option<ResultWord>
    ensures { result ≡ result_word text.now }
{
    ResultWord::ALL
        .iter()
        .copied()
        .find(|word| is_written(text, *word))
}
