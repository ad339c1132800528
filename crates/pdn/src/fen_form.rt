//! Parser of the form of a FEN text: the side to move, and the items of both lists. Repeated squares pass here.
ghost use Rattle.std.specs.Prelude.{◌≡◌, ◌-◌, ◌<◌, ◌≤◌, IfOk, IfErr, IfSome, MatchOption, Ok, Err, Some, None, length};
ghost use Rattle.pdn.specs.FenItems.{ends_list, ReadsItems, ReadsList};
ghost use Rattle.pdn.specs.FenForm.{read_side, read_header, read_between, left_over, past_end, ReadsRest, ReadsLists};
ghost use Rattle.pdn.specs.FenForm.{ReadsForm};
ghost use Rattle.pdn.specs.internal.ReadFen.{IsBadAt};
ghost use Rattle.pdn.specs.internal.FenValues.{form_value};

use crate::faults::FenFault;
use crate::items::{Item, past_byte, read_item};
use squares::Side;
use std::alloc::Global;

/// The side to move, and the items of both lists in textual order.
#[derive(Drop)]
pub struct FenForm {
    pub turn: Side,
    pub items: Vec<Item>,
}

// A side read from the front of a text, with the rest of the text.
#[derive(Clone, Copy)]
struct SideFront<'a> {
    side: Side,
    rest: &'a [u8],
}

// The side to move and the side of the first list, with the rest of the text.
#[derive(Clone, Copy)]
struct Header<'a> {
    turn: Side,
    first: Side,
    rest: &'a [u8],
}

fn read_side(text: &[u8]) -> Option<SideFront<'_>>
    ensures front { MatchOption result
        (read_side text.now ≡ None) (λ front. read_side text.now ≡ Some
        (record { side = front.side; rest = front.rest.now })) }
    ensures shorter { IfSome result (λ front. length front.rest.now < length text.now) }
{
    match text {
        [b'W', rest @ ..] => Some(SideFront {
            side: Side::First,
            rest,
        }),
        [b'B', rest @ ..] => Some(SideFront {
            side: Side::Second,
            rest,
        }),
        _ => None,
    }
}

fn read_header(text: &[u8]) -> Result<Header<'_>, usize>
    ensures header { IfOk result
        (λ header. read_header text.now ≡ Ok
        (record { turn = header.turn; first = header.first; rest = header.rest.now })) }
    ensures shorter { IfOk result (λ header. length header.rest.now < length text.now) }
    ensures offset { IfErr result (λ offset. read_header text.now ≡ Err offset) }
{
    let front = match read_side(text) {
        Some(front) => front,
        None => return Err(0),
    };
    let rest = match past_byte(b':', front.rest) {
        Some(rest) => rest,
        None => return Err(1),
    };
    match read_side(rest) {
        Some(list) => Ok(Header {
            turn: front.side,
            first: list.side,
            rest: list.rest,
        }),
        None => Err(2),
    }
}

fn ends_list(text: &[u8]) -> bool
    ensures { result ≡ ends_list text.now }
{
    match text {
        [] => true,
        [c, ..] => *c == b':' || *c == b'.',
    }
}

// Appends the items of a non-empty list to `items`; returns the rest of the text.
fn read_items<'a>(
    total: usize,
    side: Side,
    text: &'a [u8],
    items: &mut Vec<Item>,
) -> Result<&'a [u8], FenFault>
    requires { length text.now ≤ total }
    ensures rest { IfOk result
        (λ rest. ReadsItems total side items.old.items text.now
        (Ok (record { items = items.new.items; rest = rest.now }))) }
    ensures shorter { IfOk result (λ rest. length rest.now ≤ length text.now) }
    ensures fault { IfErr result
        (λ fault. IsBadAt (λ offset. ReadsItems total side items.old.items text.now
        (Err offset)) fault) }
{
    let mut left = text;
    loop {
        let front = match read_item(total, side, left) {
            Ok(front) => front,
            Err(offset) => return Err(FenFault::BadText(offset)),
        };
        items.push(front.item)?;
        match past_byte(b',', front.rest) {
            Some(more) => left = more,
            None => return Ok(front.rest),
        }
    }
}

// Appends the items of a list, which may be empty, to `items`; returns the rest of the text.
fn read_list<'a>(
    total: usize,
    side: Side,
    text: &'a [u8],
    items: &mut Vec<Item>,
) -> Result<&'a [u8], FenFault>
    requires { length text.now ≤ total }
    ensures rest { IfOk result
        (λ rest. ReadsList total side items.old.items text.now
        (Ok (record { items = items.new.items; rest = rest.now }))) }
    ensures shorter { IfOk result (λ rest. length rest.now ≤ length text.now) }
    ensures fault { IfErr result
        (λ fault. IsBadAt (λ offset. ReadsList total side items.old.items text.now
        (Err offset)) fault) }
{
    if ends_list(text) {
        return Ok(text);
    }
    match read_items(total, side, text, items) {
        Ok(rest) => Ok(rest),
        Err(fault) => Err(fault),
    }
}

// The rest of the text after the colon and the letter of the second list, which is not the side `first`.
fn read_between(total: usize, first: Side, text: &[u8]) -> Result<&[u8], usize>
    requires { length text.now ≤ total }
    ensures rest { IfOk result (λ rest. read_between total first text.now ≡ Ok rest.now) }
    ensures shorter { IfOk result (λ rest. length rest.now ≤ length text.now) }
    ensures offset { IfErr result (λ offset. read_between total first text.now ≡ Err offset) }
{
    let rest = match past_byte(b':', text) {
        Some(rest) => rest,
        None => return Err(total - text.len()),
    };
    match read_side(rest) {
        Some(list) => {
            if list.side == first {
                return Err(total - rest.len());
            }
            Ok(list.rest)
        }
        None => Err(total - rest.len()),
    }
}

fn left_over(total: usize, text: &[u8]) -> Option<usize>
    requires { length text.now ≤ total }
    ensures { result ≡ left_over total text.now }
{
    if text.is_empty() {
        return None;
    }
    Some(total - text.len())
}

// The offset of the first byte after the end of the text, which is one optional dot.
fn past_end(total: usize, text: &[u8]) -> Option<usize>
    requires { length text.now ≤ total }
    ensures { result ≡ past_end total text.now }
{
    match past_byte(b'.', text) {
        Some(rest) => left_over(total, rest),
        None => left_over(total, text),
    }
}

// Parses the second list and the end of the text.
fn read_rest(
    total: usize,
    turn: Side,
    second: Side,
    text: &[u8],
    before: Vec<Item>,
) -> Result<FenForm, FenFault>
    requires { length text.now ≤ total }
    ensures form { IfOk result
        (λ form. ReadsRest total turn second before.items text.now (Ok (form_value form))) }
    ensures fault { IfErr result
        (λ fault. IsBadAt (λ offset. ReadsRest total turn second before.items text.now
        (Err offset)) fault) }
{
    let mut items = before;
    let rest = match read_list(total, second, text, &mut items) {
        Ok(rest) => rest,
        Err(fault) => return Err(fault),
    };
    match past_end(total, rest) {
        Some(offset) => Err(FenFault::BadText(offset)),
        None => Ok(FenForm { turn, items }),
    }
}

// Parses both lists and the end of the text.
fn read_lists(
    alloc: Global,
    total: usize,
    turn: Side,
    first: Side,
    text: &[u8],
) -> Result<FenForm, FenFault>
    requires { length text.now ≤ total }
    ensures form { IfOk result
        (λ form. ReadsLists total (record { turn = turn; first = first; rest = text.now })
        (Ok (form_value form))) }
    ensures fault { IfErr result
        (λ fault. IsBadAt (λ offset. ReadsLists total
        (record { turn = turn; first = first; rest = text.now }) (Err offset)) fault) }
{
    let mut items = Vec::new(alloc);
    let after = match read_list(total, first, text, &mut items) {
        Ok(rest) => rest,
        Err(fault) => return Err(fault),
    };
    let rest = match read_between(total, first, after) {
        Ok(rest) => rest,
        Err(offset) => return Err(FenFault::BadText(offset)),
    };
    match read_rest(total, turn, first.other(), rest, items) {
        Ok(form) => Ok(form),
        Err(fault) => Err(fault),
    }
}

/// Parses the form of a FEN text.
///
/// # Errors
///
/// `FenFault::Memory` if out of memory; `FenFault::BadText` for a syntax error.
pub fn read_fen_form(alloc: Global, text: &[u8]) -> Result<FenForm, FenFault>
    ensures form { IfOk result (λ form. ReadsForm text.now (Ok (form_value form))) }
    ensures fault { IfErr result
        (λ fault. IsBadAt (λ offset. ReadsForm text.now (Err offset)) fault) }
{
    let header = match read_header(text) {
        Ok(header) => header,
        Err(offset) => return Err(FenFault::BadText(offset)),
    };
    match read_lists(alloc, text.len(), header.turn, header.first, header.rest) {
        Ok(form) => Ok(form),
        Err(fault) => Err(fault),
    }
}
