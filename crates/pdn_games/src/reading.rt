//! Reader of a whole game.
ghost use Rattle.std.specs.Prelude.{◌≡◌, ◌↔◌, None, true, false, IfOk, IfErr, OnOk, IsTrue, codes};
ghost use Rattle.squares.specs.DraughtsOpening.{opening};
ghost use Rattle.squares.specs.DraughtsSamePosition.{same_position};
ghost use Rattle.pdn.specs.ReadFen.{IsFen};
ghost use Rattle.pdn_games.specs.Contents.{first_tag, is_other_type, move_texts, HasOpening};
ghost use Rattle.pdn_games.specs.Moves.{MeanAll};
ghost use Rattle.pdn_games.specs.Reading.{tag_score, IsOfClub, Fails, IsRefused};
ghost use Rattle.pdn_games.specs.internal.Reading.{IsGameOf, IsTextOf};
ghost use Rattle.pdn_games.specs.internal.Replaying.{HaveForms, IsConsistent};
ghost use Rattle.pdn_games.specs.internal.TokenValues.{all_placed};

use crate::contents::{first_tag, is_other_type, result_in};
use crate::ending::{parse_score, score_by_rules, score_of_result, settle};
use crate::faults::PdnFault;
use crate::game::PdnGame;
use crate::order::bad_at;
use crate::replay::{PdnReplay, replay_of};
use crate::tokens::{PlacedToken, tokens_of};
use draughts_moves::Memory;
use pdn::laws::{fen_forms_are_texts, reads_one_position};
use pdn::{FenFault, read_fen};
use squares::{DPos, Score};
use std::alloc::Global;

// The score that the text's own `Result` tag states.
fn tag_score(placed: &[PlacedToken<'_>]) -> Option<Score>
    ensures { result ≡ tag_score (first_tag (codes "Result") (all_placed placed.now)) }
{
    match first_tag("Result", placed) {
        None => None,
        Some(value) => parse_score(value),
    }
}

fn is_same(one: &DPos, other: &DPos) -> bool
    ensures { result ≡ same_position one.now other.now }
{
    *one == *other
}

fn is_opening(position: &DPos) -> bool
    ensures { IsTrue result ↔ (position.now ≡ opening) }
{
    is_same(position, &DPos::opening())
}

// Whether a FEN text denotes the initial position.
fn is_opening_text(alloc: Global, text: &[u8]) -> Result<bool, Memory>
    ensures { IfOk result (λ even. IsTrue even ↔ IsFen text.now opening) }
{
    fen_forms_are_texts();
    reads_one_position();
    let text = match str::from_utf8(text) {
        Ok(text) => text,
        Err(_) => return Ok(false),
    };
    match read_fen(alloc, text) {
        Ok(position) => Ok(is_opening(&position)),
        Err(FenFault::Memory) => Err(Memory),
        Err(FenFault::BadText(_)) => Ok(false),
    }
}

// Whether the game begins from the initial position: without a `FEN` tag, or with that of the initial position.
fn has_opening(alloc: Global, placed: &[PlacedToken<'_>]) -> Result<bool, Memory>
    ensures { IfOk result (λ even. IsTrue even ↔ HasOpening (all_placed placed.now)) }
{
    match first_tag("FEN", placed) {
        None => Ok(true),
        Some(text) => is_opening_text(alloc, text),
    }
}

// Checks that the game is international draughts from the initial position.
fn check_kind(alloc: Global, placed: &[PlacedToken<'_>]) -> Result<(), PdnFault>
    ensures of_club { OnOk result (IsOfClub (all_placed placed.now)) }
    ensures fault { IfErr result (Fails (all_placed placed.now)) }
{
    if is_other_type(placed) {
        return Err(PdnFault::OtherType);
    }
    if !has_opening(alloc, placed)? {
        return Err(PdnFault::OtherOpening);
    }
    Ok(())
}

// The game of a text whose moves are replayed, if its result agrees.
fn game_of(placed: &[PlacedToken<'_>], replay: PdnReplay) -> Result<PdnGame, PdnFault>
    requires stands { IsConsistent replay }
    requires of_club { IsOfClub (all_placed placed.now) }
    requires mean { MeanAll opening (move_texts (all_placed placed.now)) replay.moves.items }
    ensures game { IfOk result (IsGameOf (all_placed placed.now)) }
    ensures fault { IfErr result (Fails (all_placed placed.now)) }
{
    let claim = score_of_result(result_in(placed));
    let by_rule = score_by_rules(replay.counts.end(), replay.position.turn());
    match settle(claim, by_rule, tag_score(placed)) {
        Err(fault) => Err(fault),
        Ok(score) => Ok(PdnGame {
            moves: replay.moves,
            score,
        }),
    }
}

// Reads the game of well-formed tokens.
fn read_tokens(alloc: Global, placed: &[PlacedToken<'_>]) -> Result<PdnGame, PdnFault>
    requires { HaveForms (all_placed placed.now) }
    ensures game { IfOk result (IsGameOf (all_placed placed.now)) }
    ensures fault { IfErr result (Fails (all_placed placed.now)) }
{
    check_kind(alloc, placed)?;
    let replay = replay_of(alloc, placed)?;
    game_of(placed, replay)
}

/// Reads a game from a PDN text.
///
/// # Errors
///
/// The first that applies of:
///
/// - `PdnFault::BadText` for a syntax error.
/// - `PdnFault::OtherType` for another kind of draughts, `PdnFault::OtherOpening` for another initial position.
/// - ply by ply, `PdnFault::AfterEnd`, `PdnFault::Ambiguous` or `PdnFault::Illegal`.
/// - `PdnFault::Unfinished` without a score, `PdnFault::ResultDiffers` if the score disagrees with the rules or the
///   `Result` tag.
///
/// `PdnFault::Memory` if out of memory.
pub fn read_game(alloc: Global, text: &[u8]) -> Result<PdnGame, PdnFault>
    ensures game { IfOk result (IsTextOf text.now) }
    ensures fault { IfErr result (IsRefused text.now) }
{
    let lexed = tokens_of(alloc, text)?;
    let placed = lexed.tokens.as_slice();
    match bad_at(placed, lexed.stop) {
        Some(offset) => Err(PdnFault::BadText(offset)),
        None => read_tokens(alloc, placed),
    }
}
