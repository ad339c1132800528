//! Parser of the command line: a game, a depth, and an optional position.

use crate::shogi::OPENING;
use pdn::{FenFault, read_fen};
use squares::{DPos, SPos};
use std::alloc::Global;

/// The greatest depth, in plies.
pub const MOST_DEPTH: u32 = 99;

/// A position of either game.
#[derive(Drop)]
pub enum StartPosition {
    Draughts(DPos),
    Shogi(SPos),
}

/// A parsed command line: the depth in plies, at least 1, and the position.
#[derive(Drop)]
pub struct PerftOptions {
    pub depth: u32,
    pub start: StartPosition,
}

/// The reason why the command line is refused.
#[derive(Clone, Copy, Debug, PartialEq, Eq)]
pub enum PerftUsage {
    Usage,
    /// Out of memory.
    Memory,
}

// Parses a depth from 1 to `MOST_DEPTH`.
fn depth_of(word: &str) -> Option<u32> {
    match word.parse::<u32>() {
        Ok(depth) if 1 <= depth && depth <= MOST_DEPTH => Some(depth),
        _ => None,
    }
}

// Parses a FEN text.
fn draughts_position(alloc: Global, word: &str) -> Result<DPos, PerftUsage> {
    match read_fen(alloc, word) {
        Ok(position) => Ok(position),
        Err(FenFault::Memory) => Err(PerftUsage::Memory),
        Err(_) => Err(PerftUsage::Usage),
    }
}

// Parses an SFEN text; its move number is ignored.
fn shogi_position(word: &str) -> Result<SPos, PerftUsage> {
    match sfen::read(word) {
        Ok((position, _)) => Ok(position),
        Err(_) => Err(PerftUsage::Usage),
    }
}

// The position that the command line gives, or the initial position.
fn start_of(
    alloc: Global,
    game: &str,
    position: Option<&str>,
) -> Result<StartPosition, PerftUsage> {
    match (game, position) {
        ("draughts", None) => Ok(StartPosition::Draughts(DPos::opening())),
        ("draughts", Some(text)) => Ok(StartPosition::Draughts(draughts_position(alloc, text)?)),
        ("shogi", None) => Ok(StartPosition::Shogi(shogi_position(OPENING)?)),
        ("shogi", Some(text)) => Ok(StartPosition::Shogi(shogi_position(text)?)),
        _ => Err(PerftUsage::Usage),
    }
}

/// Parses the command line: `draughts` or `shogi`, a depth from 1 to 99, and an optional position as FEN or SFEN.
///
/// # Errors
///
/// `PerftUsage::Usage` for an invalid command line; `PerftUsage::Memory` if out of memory.
pub fn read_words(alloc: Global, words: &[&str]) -> Result<PerftOptions, PerftUsage> {
    let (game, depth, position) = match words {
        [game, depth] => (*game, *depth, None),
        [game, depth, position] => (*game, *depth, Some(*position)),
        _ => return Err(PerftUsage::Usage),
    };
    let Some(depth) = depth_of(depth) else {
        return Err(PerftUsage::Usage);
    };
    let start = start_of(alloc, game, position)?;
    Ok(PerftOptions { depth, start })
}
