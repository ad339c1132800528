//! Parser of the items in the lists of a FEN text: `28`, `K46` or `1-20`.
ghost use Rattle.std.specs.Prelude.{◌≡◌, ◌+◌, ◌-◌, ◌<◌, ◌≤◌, IfOk, IfErr, IfSome, MatchOption, Ok, Err, Some, None};
ghost use Rattle.std.specs.Prelude.{length};
ghost use Rattle.pdn.specs.SquareText.{read_square};
ghost use Rattle.pdn.specs.FenItems.{past_byte, read_end_second, can_begin, read_end_number, read_end, man, king};
ghost use Rattle.pdn.specs.FenItems.{king_of, range_of, men_of, read_item};

use crate::squares_text::{SquareFront, read_square};
use squares::{DPiece, Dsq, Side};

/// Equal pieces on the squares `from` to `to`; `at` is the offset of the item in the text, in bytes.
#[derive(Clone, Copy, Debug, PartialEq, Eq)]
pub struct Item {
    pub at: usize,
    pub from: Dsq,
    pub to: Dsq,
    pub piece: DPiece,
}

/// An item read from the front of a text, with the rest of the text.
#[derive(Clone, Copy)]
pub struct ItemFront<'a> {
    pub item: Item,
    pub rest: &'a [u8],
}

/// The rest of the text after a byte, if the text begins with that byte.
pub fn past_byte(byte: u8, text: &[u8]) -> Option<&[u8]>
    ensures past { MatchOption result
        (past_byte byte text.now ≡ None) (λ rest. past_byte byte text.now ≡ Some rest.now) }
    ensures shorter { IfSome result (λ rest. length rest.now < length text.now) }
{
    match text {
        [c, rest @ ..] if *c == byte => Some(rest),
        _ => None,
    }
}

// Reads the optional second digit of the last square of a range that begins at `low`.
fn read_end_second(low: u8, first: u8, text: &[u8]) -> Result<(u8, &[u8]), usize>
    requires low { low ≤ 50 }
    requires first { (1 ≤ first) × (first ≤ 9) }
    ensures front { IfOk result
        (λ front. read_end_second low first text.now ≡ Ok
        (record { square = front.0; rest = front.1.now })) }
    ensures range { IfOk result (λ front. (1 ≤ front.0) × (front.0 ≤ 50)) }
    ensures rest { IfOk result (λ front. length front.1.now ≤ length text.now) }
    ensures bytes { IfErr result (λ bytes. read_end_second low first text.now ≡ Err bytes) }
    ensures one { IfErr result (λ bytes. bytes ≡ 1) }
{
    match text {
        [c @ b'0'..=b'9', rest @ ..]
            if 10 * first + (*c - b'0') <= 50 && low <= 10 * first + (*c - b'0') => {
            Ok((10 * first + (*c - b'0'), rest))
        }
        _ => {
            if low <= first {
                return Ok((first, text));
            }
            Err(1)
        }
    }
}

// Whether a number of one or two digits that begins with `digit` can be at least `low` and at most 50.
fn can_begin(low: u8, digit: u8) -> bool
    requires { digit ≤ 9 }
    ensures { result ≡ can_begin low digit }
{
    low <= digit || (digit <= 5 && low <= 10 * digit + 9)
}

// Reads the last square of a range that begins at `low`, without a leading 0.
fn read_end_number(low: Dsq, text: &[u8]) -> Result<SquareFront<'_>, usize>
    ensures front { IfOk result
        (λ front. read_end_number low text.now ≡ Ok
        (record { square = front.square; rest = front.rest.now })) }
    ensures rest { IfOk result (λ front. length front.rest.now < length text.now) }
    ensures bytes { IfErr result (λ bytes. read_end_number low text.now ≡ Err bytes) }
    ensures within { IfErr result (λ bytes. bytes ≤ length text.now) }
{
    match text {
        [c @ b'1'..=b'9', rest @ ..] if can_begin(low.number(), *c - b'0') => {
            let (number, rest) = match read_end_second(low.number(), *c - b'0', rest) {
                Ok(front) => front,
                Err(bytes) => return Err(bytes),
            };
            match Dsq::new(number) {
                Some(square) => Ok(SquareFront { square, rest }),
                None => unreachable!(),
            }
        }
        _ => Err(0),
    }
}

// Reads the last square of a range that begins at `low`, with at most one leading 0.
fn read_end(low: Dsq, text: &[u8]) -> Result<SquareFront<'_>, usize>
    ensures front { IfOk result
        (λ front. read_end low text.now ≡ Ok
        (record { square = front.square; rest = front.rest.now })) }
    ensures rest { IfOk result (λ front. length front.rest.now < length text.now) }
    ensures bytes { IfErr result (λ bytes. read_end low text.now ≡ Err bytes) }
    ensures within { IfErr result (λ bytes. bytes ≤ length text.now) }
{
    match text {
        [b'0', rest @ ..] => match read_end_number(low, rest) {
            Ok(front) => Ok(front),
            Err(bytes) => Err(bytes + 1),
        },
        _ => read_end_number(low, text),
    }
}

fn man(side: Side) -> DPiece
    ensures { result ≡ man side }
{
    DPiece { side, king: false }
}

fn king(side: Side) -> DPiece
    ensures { result ≡ king side }
{
    DPiece { side, king: true }
}

// Reads the king of an item at the offset `at`; `text` follows the `K`.
fn read_king(total: usize, at: usize, side: Side, text: &[u8]) -> Result<ItemFront<'_>, usize>
    requires { length text.now ≤ total }
    ensures front { IfOk result
        (λ front. king_of at (total - length text.now) side (read_square text.now) ≡ Ok
        (record { item = front.item; rest = front.rest.now })) }
    ensures rest { IfOk result (λ front. length front.rest.now < length text.now) }
    ensures offset { IfErr result
        (λ offset. king_of at (total - length text.now) side (read_square text.now) ≡ Err offset) }
{
    match read_square(text) {
        Ok(front) => Ok(ItemFront {
            item: Item {
                at,
                from: front.square,
                to: front.square,
                piece: king(side),
            },
            rest: front.rest,
        }),
        Err(bytes) => Err(total - text.len() + bytes),
    }
}

// Reads the range of men of an item at the offset `at`; `text` follows the hyphen.
fn read_range(
    total: usize,
    at: usize,
    side: Side,
    from: Dsq,
    text: &[u8],
) -> Result<ItemFront<'_>, usize>
    requires { length text.now ≤ total }
    ensures front { IfOk result
        (λ front. range_of at (total - length text.now) side from (read_end from text.now) ≡ Ok
        (record { item = front.item; rest = front.rest.now })) }
    ensures rest { IfOk result (λ front. length front.rest.now < length text.now) }
    ensures offset { IfErr result
        (λ offset. range_of at (total - length text.now) side from (read_end from text.now)
        ≡ Err offset) }
{
    match read_end(from, text) {
        Ok(front) => Ok(ItemFront {
            item: Item {
                at,
                from,
                to: front.square,
                piece: man(side),
            },
            rest: front.rest,
        }),
        Err(bytes) => Err(total - text.len() + bytes),
    }
}

// Reads a man, or a range of men, of an item at the offset `at`.
fn read_men(total: usize, at: usize, side: Side, text: &[u8]) -> Result<ItemFront<'_>, usize>
    requires { at + length text.now ≤ total }
    ensures front { IfOk result
        (λ front. men_of total at side (read_square text.now) ≡ Ok
        (record { item = front.item; rest = front.rest.now })) }
    ensures rest { IfOk result (λ front. length front.rest.now < length text.now) }
    ensures offset { IfErr result
        (λ offset. men_of total at side (read_square text.now) ≡ Err offset) }
{
    let front = match read_square(text) {
        Ok(front) => front,
        Err(bytes) => return Err(at + bytes),
    };
    match past_byte(b'-', front.rest) {
        Some(rest) => read_range(total, at, side, front.square, rest),
        None => Ok(ItemFront {
            item: Item {
                at,
                from: front.square,
                to: front.square,
                piece: man(side),
            },
            rest: front.rest,
        }),
    }
}

/// Reads an item from the front of `text`, the rest of a text of `total` bytes.
///
/// # Errors
///
/// For a syntax error, the number of bytes of the whole text that can begin a FEN text.
#[tactic(auto, unfolding(crate::specs::FenItems::read_item))]
pub fn read_item(total: usize, side: Side, text: &[u8]) -> Result<ItemFront<'_>, usize>
    requires { length text.now ≤ total }
    ensures front { IfOk result
        (λ front. read_item total side text.now ≡ Ok
        (record { item = front.item; rest = front.rest.now })) }
    ensures rest { IfOk result (λ front. length front.rest.now < length text.now) }
    ensures offset { IfErr result (λ offset. read_item total side text.now ≡ Err offset) }
{
    let at = total - text.len();
    match past_byte(b'K', text) {
        Some(rest) => read_king(total, at, side, rest),
        None => read_men(total, at, side, text),
    }
}
