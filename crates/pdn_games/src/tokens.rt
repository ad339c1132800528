//! Lexer of a game's text.
ghost use Rattle.std.specs.Prelude.{◌≡◌, ◌≤◌, ◌<◌, IfOk, IfSome, MatchOption, Some, None, length};
ghost use Rattle.pdn_games.specs.Results as results;
ghost use Rattle.pdn_games.specs.Tokens.{word_len, longest, token_front, front_with, front_at, begins_feed};
ghost use Rattle.pdn_games.specs.Tokens.{lets_follow, TextTokens};
ghost use Rattle.pdn_games.specs.internal.TokenFronts.{front_of, IsShorter};
ghost use Rattle.pdn_games.specs.internal.TokenValues.{token_of, all_placed};

use crate::lengths::{move_len, number_len, skip_bytes};
use crate::results::{ResultWord, result_at};
use crate::skips::past_skipped;
use crate::tags::tag_front;
use std::alloc::{AllocError, Global};

/// A token of a game's text.
#[derive(Clone, Copy)]
pub enum Token<'a> {
    /// A tag with its name and raw value.
    Tag { name: &'a [u8], value: &'a [u8] },
    /// A move number.
    Number,
    /// The text of a move.
    Move(&'a [u8]),
    /// A result.
    Result(ResultWord),
}

/// A token and its offset in the text, in bytes.
#[derive(Clone, Copy)]
pub struct PlacedToken<'a> {
    pub at: usize,
    pub token: Token<'a>,
}

/// The part at the front of a text, with the rest of the text.
#[derive(Clone, Copy)]
pub enum LexStep<'a> {
    /// The end of the text.
    Ended,
    /// A skipped part.
    Skipped(&'a [u8]),
    /// A token.
    Found(Token<'a>, &'a [u8]),
    /// A syntax error.
    Stuck,
}

// A token read from the front of a text, with the rest of the text.
#[derive(Clone, Copy)]
struct TokenFront<'a> {
    token: Token<'a>,
    rest: &'a [u8],
}

fn word_len(word: Option<ResultWord>) -> usize
    ensures { result ≡ word_len word }
{
    match word {
        None => 0,
        Some(word) => word.text().len(),
    }
}

// The longest of a move number, a move and a result; a result wins over a move of the same length.
fn longest(
    text: &[u8],
    numbered: usize,
    moved: usize,
    word: Option<ResultWord>,
) -> Option<TokenFront<'_>>
    requires numbered { numbered ≤ length text.now }
    requires moved { moved ≤ length text.now }
    requires word { word_len word ≤ length text.now }
    ensures front { MatchOption result
        (longest text.now numbered moved word ≡ None)
        (λ t. longest text.now numbered moved word
        ≡ Some (record { token = token_of t.token; rest = t.rest.now })) }
    ensures shorter { IfSome result (λ t. length t.rest.now < length text.now) }
{
    if moved < numbered && word_len(word) < numbered {
        return Some(TokenFront {
            token: Token::Number,
            rest: skip_bytes(text, numbered),
        });
    }
    if word_len(word) < moved {
        return Some(TokenFront {
            token: Token::Move(&text[..moved]),
            rest: skip_bytes(text, moved),
        });
    }
    match word {
        None => None,
        Some(word) => Some(TokenFront {
            token: Token::Result(word),
            rest: skip_bytes(text, word.text().len()),
        }),
    }
}

// The result at the front of a text; the contract bounds its length.
fn result_within(text: &[u8]) -> Option<ResultWord>
    ensures value { result ≡ results.result_at text.now }
    ensures within { word_len result ≤ length text.now }
{
    match result_at(text) {
        None => None,
        Some(word) => Some(word),
    }
}

// The token at the front of a text.
#[tactic(auto, unfolding(crate::specs::Tokens::token_front))]
fn token_front(text: &[u8]) -> Option<TokenFront<'_>>
    ensures front { MatchOption result
        (token_front text.now ≡ None)
        (λ t. token_front text.now ≡ Some (record { token = token_of t.token; rest = t.rest.now })) }
    ensures shorter { IfSome result (λ t. length t.rest.now < length text.now) }
{
    match text {
        [] => None,
        [b'[', rest @ ..] => match tag_front(rest) {
            None => None,
            Some(tag) => Some(TokenFront {
                token: Token::Tag {
                    name: tag.name,
                    value: tag.value,
                },
                rest: tag.rest,
            }),
        },
        _ => longest(text, number_len(text), move_len(text), result_within(text)),
    }
}

// The token at the front of a text, if a token is allowed here.
fn free_front(free: bool, text: &[u8]) -> LexStep<'_>
    ensures value { front_of result ≡ front_with free text.now None }
    ensures shorter { IsShorter text.now result }
{
    if !free {
        return LexStep::Stuck;
    }
    match token_front(text) {
        None => LexStep::Stuck,
        Some(front) => LexStep::Found(front.token, front.rest),
    }
}

// The front of a text. `begins_line`: the text is at the beginning of a line; `free`: a token is allowed here.
#[tactic(auto, unfolding(crate::specs::Tokens::front_at))]
fn front_at(begins_line: bool, free: bool, text: &[u8]) -> LexStep<'_>
    ensures value { front_of result ≡ front_at begins_line free text.now }
    ensures shorter { IsShorter text.now result }
{
    match text {
        [] => LexStep::Ended,
        _ => match past_skipped(begins_line, text) {
            Some(rest) => LexStep::Skipped(rest),
            None => free_front(free, text),
        },
    }
}

fn begins_feed(text: &[u8]) -> bool
    ensures { result ≡ begins_feed text.now }
{
    match text {
        [b'\n', ..] => true,
        _ => false,
    }
}

// Whether a token may be followed by another without a skipped part between them.
fn lets_follow(token: Token<'_>) -> bool
    ensures { result ≡ lets_follow (token_of token.entry) }
{
    match token {
        Token::Tag { name: _, value: _ } => true,
        Token::Number => true,
        Token::Move(_) => false,
        Token::Result(_) => false,
    }
}

/// The tokens of a text, and the offset at which the lexer stopped, unless that is the end.
#[derive(Drop)]
pub struct Lexed<'a> {
    pub tokens: Vec<PlacedToken<'a>>,
    pub stop: Option<usize>,
}

/// Splits a text into tokens, up to the first syntax error.
///
/// # Errors
///
/// `AllocError` if out of memory.
pub fn tokens_of(alloc: Global, text: &[u8]) -> Result<Lexed<'_>, AllocError>
    ensures { IfOk result (λ lexed. TextTokens text.now (all_placed lexed.tokens.items) lexed.stop) }
{
    let mut tokens = Vec::new(alloc);
    let mut rest = text;
    let mut begins_line = true;
    let mut free = true;
    loop {
        match front_at(begins_line, free, rest) {
            LexStep::Ended => return Ok(Lexed { tokens, stop: None }),
            LexStep::Stuck => {
                let stop = Some(text.len() - rest.len());
                return Ok(Lexed { tokens, stop });
            }
            LexStep::Skipped(more) => {
                begins_line = begins_feed(rest);
                free = true;
                rest = more;
            }
            LexStep::Found(token, more) => {
                let at = text.len() - rest.len();
                tokens.push(PlacedToken { at, token })?;
                begins_line = false;
                free = lets_follow(token);
                rest = more;
            }
        }
    }
}
