//! Questions about records of shogi games.

use crate::rules::csa_written::write_record;
use crate::rules::shogi_told::told_move;
use crate::rules::unanswered::Unanswered;
use crate::rules::words::{push_word, told_score};
use csa::read_games;
use std::alloc::Global;

// The scores, the declared wins and the moves of a text's games, separated by `/`, or the refusal.
fn told(alloc: Global, text: &str) -> Result<String, Unanswered> {
    let games = match read_games(alloc, text.as_bytes()) {
        Ok(games) => games,
        Err(fault) => return Ok(format!(in alloc; "{fault}")?),
    };
    let mut told = String::new(alloc);
    for game in games.as_slice() {
        if !told.is_empty() {
            push_word(&mut told, "/")?;
        }
        push_word(&mut told, told_score(game.score))?;
        if game.declared {
            push_word(&mut told, "declared")?;
        }
        for made in &game.moves {
            push_word(&mut told, told_move(alloc, made)?.as_str())?;
        }
    }
    Ok(told)
}

/// Answers a question about a text that is read, or about a game that is written.
pub fn answer(alloc: Global, asked: &str, parts: &[String]) -> Result<String, Unanswered> {
    match (asked, parts) {
        ("read", [text]) => told(alloc, text.as_str()),
        ("write", parts) => write_record(alloc, parts),
        _ => Err(Unanswered::Question),
    }
}
