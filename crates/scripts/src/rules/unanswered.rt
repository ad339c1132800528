//! The errors of questions.

use memory::Memory;
use std::alloc::{AllocError, AllocFailed};
use std::fmt;
use std::num::ParseIntError;

/// The reason why a question has no answer: out of memory, or a mistake in the script.
#[derive(Clone, Copy)]
pub enum Unanswered {
    Memory,
    /// The input is not UTF-8 text.
    Script,
    /// No such question, or not with this number of arguments.
    Question,
    /// A line has no ` = ` between the question and its answer.
    Answer,
    /// A text's name is unknown, or is defined twice.
    Name,
    /// A word is not allowed here.
    Word,
    Number,
    Square,
    Piece,
    Position,
    Move,
    /// The moves are not a legal game.
    Game,
}

impl Unanswered {
    // The text of the error.
    fn text(self) -> &'static str {
        match self {
            Unanswered::Memory => "memory",
            Unanswered::Script => "a script",
            Unanswered::Question => "such a question",
            Unanswered::Answer => "an answer",
            Unanswered::Name => "a name of one text",
            Unanswered::Word => "a known word",
            Unanswered::Number => "a number",
            Unanswered::Square => "a square",
            Unanswered::Piece => "a piece",
            Unanswered::Position => "a position",
            Unanswered::Move => "a move",
            Unanswered::Game => "a game by the rules",
        }
    }
}

impl fmt::Display for Unanswered {
    fn fmt<W: fmt::Write>(&self, f: &mut fmt::Formatter<W>) -> fmt::Result {
        let missing = self.text();
        write!(f, "no answer, for want of {missing}")
    }
}

impl From<Memory> for Unanswered {
    fn from(_refused: Memory) -> Unanswered {
        Unanswered::Memory
    }
}

impl From<AllocError> for Unanswered {
    fn from(_refused: AllocError) -> Unanswered {
        Unanswered::Memory
    }
}

impl<T: Drop> From<AllocFailed<T>> for Unanswered {
    fn from(_refused: AllocFailed<T>) -> Unanswered {
        Unanswered::Memory
    }
}

impl From<ParseIntError> for Unanswered {
    fn from(_bad: ParseIntError) -> Unanswered {
        Unanswered::Number
    }
}
