//! The blanks, comments, annotations and variations between tokens, which the lexer skips.
ghost use Rattle.std.specs.Prelude.{◌≡◌, ◌+◌, ◌<◌, ◌≤◌, false, IfSome, MatchOption, Some, None, length};
ghost use Rattle.std.specs.List.{prefix_len};
ghost use Rattle.pdn_games.specs.Skips.{is_blank, is_mark, is_in_line, past_first, step, past_brackets, past_digits};
ghost use Rattle.pdn_games.specs.Skips.{past_marks, past_line, past_skipped};

use crate::lengths::{digits_len, skip_bytes};

fn is_blank(byte: u8) -> bool
    ensures { result ≡ is_blank byte }
{
    byte == b' ' || byte == b'\t' || (byte == b'\n' || byte == b'\r')
}

fn is_mark(byte: u8) -> bool
    ensures { result ≡ is_mark byte }
{
    byte == b'!' || byte == b'?'
}

fn is_in_line(byte: u8) -> bool
    ensures { result ≡ is_in_line byte }
{
    byte != b'\n'
}

// The rest of the text after the first occurrence of a byte.
fn past_first(byte: u8, text: &[u8]) -> Option<&[u8]>
    ensures past { MatchOption result
        (past_first byte text.now ≡ None) (λ rest. past_first byte text.now ≡ Some rest.now) }
    ensures shorter { IfSome result (λ rest. length rest.now < length text.now) }
{
    for i in 0..text.len() {
        if text[i] == byte {
            return Some(skip_bytes(text, i + 1));
        }
    }
    None
}

/// The parser state in a variation: the depth of brackets inside the outermost pair, and whether in a brace comment.
#[derive(Clone, Copy, Debug, PartialEq, Eq)]
pub struct Nesting {
    pub depth: usize,
    pub braced: bool,
}

// The state after one more byte; `None` once the outermost bracket closes.
fn step(nesting: Nesting, byte: u8) -> Option<Nesting>
    requires { nesting.depth < 18446744073709551615 }
    ensures value { result ≡ step nesting byte }
    ensures within { IfSome result (λ next. next.depth ≤ nesting.depth + 1) }
{
    let depth = nesting.depth;
    if nesting.braced {
        return Some(Nesting {
            depth,
            braced: byte != b'}',
        });
    }
    if byte == b'(' {
        return Some(Nesting {
            depth: depth + 1,
            braced: false,
        });
    }
    if byte != b')' {
        return Some(Nesting {
            depth,
            braced: byte == b'{',
        });
    }
    if depth == 0 {
        return None;
    }
    Some(Nesting {
        depth: depth - 1,
        braced: false,
    })
}

// The rest of the text after the bracket that closes the outermost pair.
fn past_brackets(text: &[u8]) -> Option<&[u8]>
    ensures past { MatchOption result
        (past_brackets (record { depth = 0; braced = false }) text.now ≡ None)
        (λ rest. past_brackets (record { depth = 0; braced = false }) text.now ≡ Some rest.now) }
    ensures shorter { IfSome result (λ rest. length rest.now < length text.now) }
{
    let mut nesting = Nesting {
        depth: 0,
        braced: false,
    };
    for i in 0..text.len() {
        match step(nesting, text[i]) {
            None => return Some(skip_bytes(text, i + 1)),
            Some(next) => nesting = next,
        }
    }
    None
}

// The rest of the text after one or more digits.
fn past_digits(text: &[u8]) -> Option<&[u8]>
    ensures past { MatchOption result
        (past_digits text.now ≡ None) (λ rest. past_digits text.now ≡ Some rest.now) }
    ensures shorter { IfSome result (λ rest. length rest.now ≤ length text.now) }
{
    let digits = digits_len(text);
    if digits == 0 {
        return None;
    }
    Some(skip_bytes(text, digits))
}

fn marks_len(text: &[u8]) -> usize
    ensures value { result ≡ prefix_len is_mark text.now }
    ensures within { result ≤ length text.now }
{
    text.iter().take_while(|c| is_mark(**c)).count()
}

fn line_len(text: &[u8]) -> usize
    ensures value { result ≡ prefix_len is_in_line text.now }
    ensures within { result ≤ length text.now }
{
    text.iter().take_while(|c| is_in_line(**c)).count()
}

fn past_marks(text: &[u8]) -> &[u8]
    ensures past { result.now ≡ past_marks text.now }
    ensures shorter { length result.now ≤ length text.now }
{
    skip_bytes(text, marks_len(text))
}

// The rest of the text from the line's end on.
fn past_line(text: &[u8]) -> &[u8]
    ensures past { result.now ≡ past_line text.now }
    ensures shorter { length result.now ≤ length text.now }
{
    skip_bytes(text, line_len(text))
}

/// The rest of the text after one skipped part at its front, if there is one; `begins_line` says whether the text is at
/// the beginning of a line.
#[tactic(auto, unfolding(crate::specs::Skips::past_skipped))]
pub fn past_skipped(begins_line: bool, text: &[u8]) -> Option<&[u8]>
    ensures past { MatchOption result
        (past_skipped begins_line text.now ≡ None)
        (λ rest. past_skipped begins_line text.now ≡ Some rest.now) }
    ensures shorter { IfSome result (λ rest. length rest.now < length text.now) }
{
    match text {
        [c, rest @ ..] if is_blank(*c) => Some(rest),
        [b'{', rest @ ..] => past_first(b'}', rest),
        [b'$', rest @ ..] => past_digits(rest),
        [b'(', rest @ ..] => past_brackets(rest),
        [c, rest @ ..] if is_mark(*c) => Some(past_marks(rest)),
        [b';', rest @ ..] => Some(past_line(rest)),
        [b'%', rest @ ..] if begins_line => Some(past_line(rest)),
        _ => None,
    }
}
