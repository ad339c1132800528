//! The `%` statements that end a record.
ghost use Rattle.std.specs.Prelude.{◌≡◌, find};
ghost use Rattle.std.specs.Str.{bytes_eq};
ghost use Rattle.csa.specs.EndWords.{word_text, end_word};

/// The end of a game as its record states it.
#[derive(Clone, Copy, Debug, PartialEq, Eq)]
pub enum EndWord {
    /// The side to move resigned.
    Resigned,
    /// The side to move ran out of time.
    TimeUp,
    /// The side to move made an illegal move.
    IllegalMove,
    /// The side to move is mated.
    Mate,
    /// The side to move declared a win by entering king.
    Declared,
    /// Fourfold repetition.
    Repetition,
    /// A draw by impasse.
    Impasse,
    /// A draw.
    Draw,
    /// Black acted against the rules.
    BlackIllegal,
    /// White acted against the rules.
    WhiteIllegal,
    /// The game was interrupted.
    Interrupted,
}

impl EndWord {
    /// All ends.
    pub const ALL: [EndWord; 11] = [
        EndWord::Resigned,
        EndWord::TimeUp,
        EndWord::IllegalMove,
        EndWord::Mate,
        EndWord::Declared,
        EndWord::Repetition,
        EndWord::Impasse,
        EndWord::Draw,
        EndWord::BlackIllegal,
        EndWord::WhiteIllegal,
        EndWord::Interrupted,
    ];

    /// The text of the statement.
    pub fn text(self) -> &'static str
        ensures { result.now ≡ word_text self }
    {
        match self {
            EndWord::Resigned => "%TORYO",
            EndWord::TimeUp => "%TIME_UP",
            EndWord::IllegalMove => "%ILLEGAL_MOVE",
            EndWord::Mate => "%TSUMI",
            EndWord::Declared => "%KACHI",
            EndWord::Repetition => "%SENNICHITE",
            EndWord::Impasse => "%JISHOGI",
            EndWord::Draw => "%HIKIWAKE",
            EndWord::BlackIllegal => "%+ILLEGAL_ACTION",
            EndWord::WhiteIllegal => "%-ILLEGAL_ACTION",
            EndWord::Interrupted => "%CHUDAN",
        }
    }
}

// Whether a text is exactly the statement of an end.
fn is_written(word: EndWord, text: &[u8]) -> bool
    ensures { result ≡ bytes_eq text.now (word_text word) }
{
    text == word.text().as_bytes()
}

/// The end that a statement names, or `None` if it is none of them.
pub fn end_word(text: &[u8]) -> Option<EndWord>
    ensures { result ≡ end_word text.now }
{
    EndWord::ALL
        .iter()
        .copied()
        .find(|word| is_written(*word, text))
}
