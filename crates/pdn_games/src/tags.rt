//! Parser of tags: `[Name "value"]`.
ghost use Rattle.std.specs.Prelude.{◌≡◌, ◌+◌, ◌<◌, ◌≤◌, false, IfSome, MatchOption, Some, None, length};
ghost use Rattle.std.specs.List.{prefix_len};
ghost use Rattle.pdn.specs.FenItems.{past_byte};
ghost use Rattle.pdn_games.specs.Tags.{is_name_byte, is_space, past_spaces, name_front, quote_step, quote_at};
ghost use Rattle.pdn_games.specs.Tags.{value_front, with_name, tag_front};

use crate::lengths::{is_digit, skip_bytes};

fn is_name_byte(byte: u8) -> bool
    ensures { result ≡ is_name_byte byte }
{
    is_digit(byte)
        || (byte >= b'A' && byte <= b'Z')
        || ((byte >= b'a' && byte <= b'z') || byte == b'_')
}

fn is_space(byte: u8) -> bool
    ensures { result ≡ is_space byte }
{
    byte == b' '
}

fn name_len(text: &[u8]) -> usize
    ensures value { result ≡ prefix_len is_name_byte text.now }
    ensures within { result ≤ length text.now }
{
    text.iter().take_while(|c| is_name_byte(**c)).count()
}

fn spaces_len(text: &[u8]) -> usize
    ensures value { result ≡ prefix_len is_space text.now }
    ensures within { result ≤ length text.now }
{
    text.iter().take_while(|c| is_space(**c)).count()
}

fn past_spaces(text: &[u8]) -> &[u8]
    ensures past { result.now ≡ past_spaces text.now }
    ensures shorter { length result.now ≤ length text.now }
{
    skip_bytes(text, spaces_len(text))
}

// The rest of the text after a byte, if the text begins with that byte.
fn past_byte(byte: u8, text: &[u8]) -> Option<&[u8]>
    ensures past { MatchOption result
        (past_byte byte text.now ≡ None) (λ rest. past_byte byte text.now ≡ Some rest.now) }
    ensures shorter { IfSome result (λ rest. length rest.now < length text.now) }
{
    match text {
        [c, rest @ ..] if *c == byte => Some(rest),
        _ => None,
    }
}

// A part read from the front of a text, with the rest of the text.
#[derive(Clone, Copy)]
struct Part<'a> {
    value: &'a [u8],
    rest: &'a [u8],
}

// Reads the name of a tag.
fn name_front(text: &[u8]) -> Option<Part<'_>>
    ensures front { MatchOption result
        (name_front text.now ≡ None)
        (λ name. name_front text.now ≡ Some (record { value = name.value.now; rest = name.rest.now })) }
    ensures shorter { IfSome result (λ name. length name.rest.now ≤ length text.now) }
{
    let name = name_len(text);
    if name == 0 {
        return None;
    }
    Some(Part {
        value: &text[..name],
        rest: skip_bytes(text, name),
    })
}

// Whether the byte after `byte` is escaped; `None` if `byte` is the closing quote.
fn quote_step(escaped: bool, byte: u8) -> Option<bool>
    ensures { result ≡ quote_step escaped byte }
{
    if escaped {
        return Some(false);
    }
    if byte == b'"' {
        return None;
    }
    Some(byte == b'\\')
}

// The index of the closing quote of a value.
fn quote_at(text: &[u8]) -> Option<usize>
    ensures value { result ≡ quote_at 0 false text.now }
    ensures within { IfSome result (λ at. at < length text.now) }
{
    let mut escaped = false;
    for i in 0..text.len() {
        match quote_step(escaped, text[i]) {
            None => return Some(i),
            Some(next) => escaped = next,
        }
    }
    None
}

// Reads the raw value of a tag (escapes kept) up to its closing quote.
fn value_front(text: &[u8]) -> Option<Part<'_>>
    ensures front { MatchOption result
        (value_front text.now ≡ None)
        (λ value. value_front text.now ≡ Some (record { value = value.value.now; rest = value.rest.now })) }
    ensures shorter { IfSome result (λ value. length value.rest.now ≤ length text.now) }
{
    match quote_at(text) {
        None => None,
        Some(at) => Some(Part {
            value: &text[..at],
            rest: skip_bytes(text, at + 1),
        }),
    }
}

/// A tag read from the front of a text, with the rest of the text. The value is raw: its escapes are kept.
#[derive(Clone, Copy)]
pub struct TagFront<'a> {
    pub name: &'a [u8],
    pub value: &'a [u8],
    pub rest: &'a [u8],
}

// Reads the value and the end of a tag, after its name.
fn with_name(name: Part<'_>) -> Option<TagFront<'_>>
    ensures front { MatchOption result
        (with_name (Some (record { value = name.entry.value.now; rest = name.entry.rest.now })) ≡ None)
        (λ tag. with_name (Some (record { value = name.entry.value.now; rest = name.entry.rest.now }))
        ≡ Some (record { name = tag.name.now; value = tag.value.now; rest = tag.rest.now })) }
    ensures shorter { IfSome result (λ tag. length tag.rest.now < length name.entry.rest.now) }
{
    let quoted = match past_byte(b'"', past_spaces(name.rest)) {
        None => return None,
        Some(quoted) => quoted,
    };
    let value = match value_front(quoted) {
        None => return None,
        Some(value) => value,
    };
    match past_byte(b']', past_spaces(value.rest)) {
        None => None,
        Some(rest) => Some(TagFront {
            name: name.value,
            value: value.value,
            rest,
        }),
    }
}

/// Reads a tag; `text` follows its opening bracket.
#[tactic(auto, unfolding(crate::specs::Tags::tag_front))]
pub fn tag_front(text: &[u8]) -> Option<TagFront<'_>>
    ensures front { MatchOption result
        (tag_front text.now ≡ None)
        (λ tag. tag_front text.now
        ≡ Some (record { name = tag.name.now; value = tag.value.now; rest = tag.rest.now })) }
    ensures shorter { IfSome result (λ tag. length tag.rest.now < length text.now) }
{
    match name_front(past_spaces(text)) {
        None => None,
        Some(name) => with_name(name),
    }
}
