//! Dispatch of a question to its subject.

use crate::rules::unanswered::Unanswered;
use crate::rules::words::{first_word, parts_of};
use crate::rules::{
    club, csa_questions, draughts_board, draughts_lines, draughts_questions, faults, pdn_questions,
    shogi_board, shogi_lines, shogi_questions, writers,
};
use club_games::{Draughts, Shogi};
use std::alloc::Global;

/// Answers a question: its first word is the subject, its second word the query, and the rest its arguments, separated
/// by `|`.
pub fn answer(alloc: Global, question: &str) -> Result<String, Unanswered> {
    let (subject, rest) = first_word(question);
    let (asked, rest) = first_word(rest);
    let parts = parts_of(alloc, rest)?;
    let parts = parts.as_slice();
    match subject {
        "draughts" => draughts_questions::answer(alloc, asked, parts),
        "draughts-line" => draughts_lines::answer(alloc, asked, parts),
        "draughts-board" => draughts_board::answer(alloc, asked, parts),
        "shogi" => shogi_questions::answer(alloc, asked, parts),
        "shogi-line" => shogi_lines::answer(alloc, asked, parts),
        "shogi-board" => shogi_board::answer(alloc, asked, parts),
        "pdn" => pdn_questions::answer(alloc, asked, parts),
        "csa" => csa_questions::answer(alloc, asked, parts),
        "writer" => writers::answer(alloc, asked, parts),
        "fault" => faults::answer(alloc, asked, parts),
        "club-draughts" => club::answer::<Draughts>(alloc, asked, parts),
        "club-shogi" => club::answer::<Shogi>(alloc, asked, parts),
        _ => Err(Unanswered::Question),
    }
}
