//! Writers of the parts of a game's text.
ghost use Rattle.std.specs.Prelude.{◌≡◌, ◌<◌, ◌++◌, ◌∷◌, [], OnOk, string_bytes};
ghost use Rattle.shogi_moves.specs.Rules.{arrived, dropped_role};
ghost use Rattle.csa.specs.Writing.{line_of, two_digits, then_two, date_text, side_sign, square_text, source_text};
ghost use Rattle.csa.specs.Writing.{target_text, entry_text, recorded_word, rule_word, word_of, end_text};
ghost use Rattle.csa.specs.internal.Writer.{lines_text};

use crate::codes::code_of;
use crate::end_words::EndWord;
use crate::head::{CsaEnd, CsaHead};
use clocks::CivilTime;
use shogi_moves::Memory;
use shogi_repetition::SEnd;
use squares::{HandKind, Role, SMove, SPiece, SPos, Score, Side, Ssq};

// Appends a line of two parts.
fn push_line(text: &mut String, name: &str, value: &str) -> Result<(), Memory>
    ensures { OnOk result (string_bytes text.new ≡ string_bytes text.old ++ line_of name.now value.now) }
{
    text.push_str(name)?;
    text.push_str(value)?;
    text.push_str("\n")?;
    Ok(())
}

// Appends the last two decimal digits of a number.
fn push_two(text: &mut String, number: u16) -> Result<(), Memory>
    ensures { OnOk result (string_bytes text.new ≡ string_bytes text.old ++ two_digits number) }
{
    text.push((b'0' + (number / 10 % 10) as u8) as char)?;
    text.push((b'0' + (number % 10) as u8) as char)?;
    Ok(())
}

// Appends a square as the digits of its file and its rank.
fn push_square(text: &mut String, square: Ssq) -> Result<(), Memory>
    ensures { OnOk result (string_bytes text.new ≡ string_bytes text.old ++ square_text square) }
{
    text.push((b'0' + square.file()) as char)?;
    text.push((b'0' + square.rank()) as char)?;
    Ok(())
}

// The role of a piece after a step.
fn role_after(piece: SPiece, promote: bool) -> Role
    ensures { result ≡ (arrived piece promote).role }
{
    if !promote {
        return piece.role;
    }
    match piece.role.kind().promoted_role() {
        None => piece.role,
        Some(promoted) => promoted,
    }
}

// The role of a dropped piece.
fn dropped_role(kind: HandKind) -> Role
    ensures { result ≡ dropped_role kind }
{
    kind.kind().role()
}

// Appends the origin of a move, `00` for a drop.
fn push_source(text: &mut String, played: &SMove) -> Result<(), Memory>
    ensures { OnOk result (string_bytes text.new ≡ string_bytes text.old ++ source_text played.now) }
{
    match *played {
        SMove::Step {
            from,
            to: _,
            promote: _,
        } => push_square(text, from)?,
        SMove::Drop { kind: _, to: _ } => text.push_str("00")?,
    }
    Ok(())
}

// Appends the destination of a move, and the code of the piece after it.
fn push_target(text: &mut String, position: &SPos, played: &SMove) -> Result<(), Memory>
    ensures { OnOk result (string_bytes text.new ≡ string_bytes text.old ++ target_text position.now played.now) }
{
    match *played {
        SMove::Step { from, to, promote } => {
            push_square(text, to)?;
            match position.board().piece_at(from) {
                None => {}
                Some(piece) => text.push_str(code_of(role_after(piece, promote)))?,
            }
        }
        SMove::Drop { kind, to } => {
            push_square(text, to)?;
            text.push_str(code_of(dropped_role(kind)))?;
        }
    }
    Ok(())
}

// The sign of a side.
fn side_text(side: Side) -> &'static str
    ensures { result.now ≡ side_sign side ∷ [] }
{
    match side {
        Side::First => "+",
        Side::Second => "-",
    }
}

/// Appends a move and its time in seconds.
///
/// # Errors
///
/// `Memory` if out of memory.
pub fn push_entry(
    text: &mut String,
    position: &SPos,
    played: &SMove,
    seconds: u64,
) -> Result<(), Memory>
    ensures { OnOk result (string_bytes text.new ≡ string_bytes text.old
        ++ entry_text position.now played.now seconds) }
{
    text.push_str(side_text(position.turn()))?;
    push_source(text, played)?;
    push_target(text, position, played)?;
    text.push_str("\nT")?;
    write!(text, "{seconds}")?;
    text.push_str("\n")?;
    Ok(())
}

// The end that expresses a recorded score; `turn` is the side to move.
fn recorded_word(score: Score, turn: Side) -> EndWord
    ensures { result ≡ recorded_word score turn }
{
    match (score, turn) {
        (Score::Draw, _) => EndWord::Draw,
        (Score::SecondWins, Side::First) | (Score::FirstWins, Side::Second) => EndWord::Resigned,
        (Score::SecondWins, Side::Second) => EndWord::BlackIllegal,
        (Score::FirstWins, Side::First) => EndWord::WhiteIllegal,
    }
}

fn rule_word(end: SEnd) -> EndWord
    ensures { result ≡ rule_word end }
{
    match end {
        SEnd::NoMove => EndWord::Mate,
        SEnd::PerpetualCheck(side) => match side {
            Side::First => EndWord::BlackIllegal,
            Side::Second => EndWord::WhiteIllegal,
        },
        SEnd::Fourfold => EndWord::Repetition,
        SEnd::PlyLimit => EndWord::Impasse,
    }
}

// The `%` statement of an end; `turn` is the side to move.
fn word_of(end: Option<CsaEnd>, turn: Side) -> EndWord
    ensures { result ≡ word_of end turn }
{
    match end {
        None => EndWord::Interrupted,
        Some(end) => match end {
            CsaEnd::Rule(end) => rule_word(end),
            CsaEnd::Resigned => EndWord::Resigned,
            CsaEnd::Time => EndWord::TimeUp,
            CsaEnd::Declared => EndWord::Declared,
            CsaEnd::Recorded(score) => recorded_word(score, turn),
        },
    }
}

/// Appends the end of a game.
///
/// # Errors
///
/// `Memory` if out of memory.
pub fn push_end(text: &mut String, end: Option<CsaEnd>, turn: Side) -> Result<(), Memory>
    ensures { OnOk result (string_bytes text.new ≡ string_bytes text.old ++ end_text end turn) }
{
    push_line(text, word_of(end, turn).text(), "")
}

// Appends a separator and the last two decimal digits of a number.
fn push_then_two(text: &mut String, sign: u8, number: u16) -> Result<(), Memory>
    requires { sign < 128 }
    ensures { OnOk result (string_bytes text.new ≡ string_bytes text.old ++ then_two sign number) }
{
    text.push(sign as char)?;
    push_two(text, number)
}

// Appends a date and a time of day: `YYYY/MM/DD hh:mm:ss`.
fn push_date(text: &mut String, at: &CivilTime) -> Result<(), Memory>
    ensures { OnOk result (string_bytes text.new ≡ string_bytes text.old ++ date_text at.now) }
{
    let year = at.year.unsigned_abs();
    push_two(text, year / 100)?;
    push_two(text, year)?;
    push_then_two(text, b'/', u16::from(at.month))?;
    push_then_two(text, b'/', u16::from(at.day))?;
    push_then_two(text, b' ', u16::from(at.hour))?;
    push_then_two(text, b':', u16::from(at.minute))?;
    push_then_two(text, b':', u16::from(at.second))?;
    Ok(())
}

/// Appends the lines before the moves; `start` is the civil time of the start.
///
/// # Errors
///
/// `Memory` if out of memory.
pub fn push_head(text: &mut String, head: &CsaHead, start: &CivilTime) -> Result<(), Memory>
    ensures { OnOk result (string_bytes text.new ≡ string_bytes text.old ++ lines_text head.now start.now) }
{
    push_line(text, "V2.2", "")?;
    push_line(text, "N+", head.black)?;
    push_line(text, "N-", head.white)?;
    push_line(text, "$EVENT:", head.event)?;
    text.push_str("$START_TIME:")?;
    push_date(text, start)?;
    push_line(text, "", "")?;
    push_line(text, "PI", "")?;
    push_line(text, "+", "")?;
    Ok(())
}
