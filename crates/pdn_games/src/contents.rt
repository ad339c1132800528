//! Lookup of tags and results among the tokens of a text.
ghost use Rattle.std.specs.Prelude.{◌≡◌, MatchOption, Some, None};
ghost use Rattle.pdn_games.specs.Contents.{value_in, first_tag, word_or, result_in, is_other, is_other_type};
ghost use Rattle.pdn_games.specs.internal.TokenValues.{token_of, all_placed};

use crate::results::ResultWord;
use crate::tokens::{PlacedToken, Token};

// The value of a token, if it is a tag of this name.
fn value_in<'a>(name: &str, token: Token<'a>) -> Option<&'a [u8]>
    ensures { MatchOption result
        (value_in name.now (token_of token.entry) ≡ None)
        (λ value. value_in name.now (token_of token.entry) ≡ Some value.now) }
{
    match token {
        Token::Tag { name: other, value } => {
            if other == name.as_bytes() {
                return Some(value);
            }
            None
        }
        _ => None,
    }
}

/// The value of the first tag of this name.
pub fn first_tag<'a>(name: &str, placed: &[PlacedToken<'a>]) -> Option<&'a [u8]>
    ensures { MatchOption result
        (first_tag name.now (all_placed placed.now) ≡ None)
        (λ value. first_tag name.now (all_placed placed.now) ≡ Some value.now) }
{
    for i in 0..placed.len() {
        match value_in(name, placed[i].token) {
            Some(value) => return Some(value),
            None => {}
        }
    }
    None
}

// The result of a token, if it is one.
fn word_in(token: Token<'_>) -> Option<ResultWord>
    ensures { result ≡ word_or (token_of token.entry) None }
{
    match token {
        Token::Result(word) => Some(word),
        _ => None,
    }
}

/// The first result among the tokens.
pub fn result_in(placed: &[PlacedToken<'_>]) -> Option<ResultWord>
    ensures { result ≡ result_in (all_placed placed.now) }
{
    for i in 0..placed.len() {
        match word_in(placed[i].token) {
            Some(word) => return Some(word),
            None => {}
        }
    }
    None
}

// Whether a `GameType` value names a kind of draughts other than the international one (type 20).
fn is_other(kind: &[u8]) -> bool
    ensures { result ≡ is_other (Some kind.now) }
{
    if kind == "20".as_bytes() {
        return false;
    }
    !kind.starts_with("20,".as_bytes())
}

/// Whether the `GameType` tag names a kind of draughts other than the international one. Without the tag, it does not.
pub fn is_other_type(placed: &[PlacedToken<'_>]) -> bool
    ensures { result ≡ is_other_type (all_placed placed.now) }
{
    match first_tag("GameType", placed) {
        None => false,
        Some(kind) => is_other(kind),
    }
}
