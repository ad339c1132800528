//! Questions about records of draughts games.

use crate::rules::draughts_questions::told_move;
use crate::rules::pdn_written::write_record;
use crate::rules::unanswered::Unanswered;
use crate::rules::words::{one_word, push_word, told_score};
use pdn_games::read_game;
use std::alloc::Global;

// The plies, the score and the moves of a text's game, or the fault.
fn told(alloc: Global, text: &str) -> Result<String, Unanswered> {
    match read_game(alloc, text.as_bytes()) {
        Ok(game) => {
            let (plies, score) = (game.moves.len(), told_score(game.score));
            let mut text = format!(in alloc; "{plies} {score}")?;
            for made in &game.moves {
                push_word(&mut text, told_move(alloc, made)?.as_str())?;
            }
            Ok(text)
        }
        Err(fault) => Ok(format!(in alloc; "{fault}")?),
    }
}

// The result of reading several texts, if it is the same for all.
fn alike(alloc: Global, texts: &[String]) -> Result<String, Unanswered> {
    let mut first = String::new(alloc);
    for text in texts {
        let found = told(alloc, text.as_str())?;
        if first.is_empty() {
            first = found;
        } else if first != found {
            return Ok(format!(in alloc; "{first}, but also {found}")?);
        }
    }
    Ok(first)
}

// Whether every proper prefix of a text is refused.
fn beginnings(alloc: Global, text: &str) -> Result<String, Unanswered> {
    let whole = text.as_bytes();
    for count in 0..whole.len() {
        if read_game(alloc, &whole[..count]).is_ok() {
            return Ok(format!(in alloc; "the first {count} bytes are read")?);
        }
    }
    one_word(alloc, "refused")
}

/// Answers a question about texts that are read, or about a game that is written.
pub fn answer(alloc: Global, asked: &str, parts: &[String]) -> Result<String, Unanswered> {
    match (asked, parts) {
        ("read", texts) => alike(alloc, texts),
        ("beginnings", [text]) => beginnings(alloc, text.as_str()),
        ("write", parts) => write_record(alloc, parts),
        _ => Err(Unanswered::Question),
    }
}
