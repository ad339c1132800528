//! The order of the tokens in a game's text: tags, then move numbers and moves, then one result.
ghost use Rattle.std.specs.Prelude.{◌≡◌};
ghost use Rattle.pdn_games.specs.declared.order.GameStage.TheVariants as part;
ghost use Rattle.pdn_games.specs.Order.{after_tag, after_move, after_result, next, first_stray, or_else, missing};
ghost use Rattle.pdn_games.specs.Order.{bad_at};
ghost use Rattle.pdn_games.specs.internal.TokenValues.{token_of, all_placed};

use crate::tokens::{PlacedToken, Token};

/// The state of the order check after some tokens.
#[derive(Clone, Copy, Debug, PartialEq, Eq)]
pub enum GameStage {
    /// Only tags so far.
    Tags,
    /// After a move number or a move.
    Moves,
    /// After the result.
    Over,
}

// The state after a tag; tags come before all other tokens.
fn after_tag(part: GameStage) -> Option<GameStage>
    ensures { result ≡ after_tag part }
{
    match part {
        GameStage::Tags => Some(GameStage::Tags),
        GameStage::Moves | GameStage::Over => None,
    }
}

// The state after a move number or a move, which come before the result.
fn after_move(part: GameStage) -> Option<GameStage>
    ensures { result ≡ after_move part }
{
    match part {
        GameStage::Tags | GameStage::Moves => Some(GameStage::Moves),
        GameStage::Over => None,
    }
}

// The state after the result, which is the last token.
fn after_result(part: GameStage) -> Option<GameStage>
    ensures { result ≡ after_result part }
{
    match part {
        GameStage::Tags | GameStage::Moves => Some(GameStage::Over),
        GameStage::Over => None,
    }
}

// The state after a token, or `None` if it is out of order.
fn next(part: GameStage, token: Token<'_>) -> Option<GameStage>
    ensures { result ≡ next part (token_of token.entry) }
{
    match token {
        Token::Tag { name: _, value: _ } => after_tag(part),
        Token::Number | Token::Move(_) => after_move(part),
        Token::Result(_) => after_result(part),
    }
}

// The offset of the first token that is out of order.
fn first_stray(placed: &[PlacedToken<'_>]) -> Option<usize>
    ensures { result ≡ first_stray part.Tags (all_placed placed.now) }
{
    let mut part = GameStage::Tags;
    for i in 0..placed.len() {
        let each = placed[i];
        match next(part, each.token) {
            Some(after) => part = after,
            None => return Some(each.at),
        }
    }
    None
}

fn or_else(first: Option<usize>, other: Option<usize>) -> Option<usize>
    ensures { result ≡ or_else first other }
{
    match first {
        Some(offset) => Some(offset),
        None => other,
    }
}

// The offset 0 if a text has no tokens.
fn missing(placed: &[PlacedToken<'_>]) -> Option<usize>
    ensures { result ≡ missing (all_placed placed.now) }
{
    match placed {
        [] => Some(0),
        _ => None,
    }
}

/// The offset of the first error: a token out of order, else the offset at which the lexer stopped, else 0 without
/// tokens.
pub fn bad_at(placed: &[PlacedToken<'_>], stop: Option<usize>) -> Option<usize>
    ensures { result ≡ bad_at (all_placed placed.now) stop }
{
    or_else(first_stray(placed), or_else(stop, missing(placed)))
}
