//! Reader of positions as FEN.
ghost use Rattle.std.specs.Prelude.{◌≡◌, IfOk, IfErr, fold};
ghost use Rattle.std.specs.List.{list_any};
ghost use Rattle.pdn.specs.ReadFen.{shares, repeated, put_on, put_item, IsFen};
ghost use Rattle.pdn.specs.internal.ReadFen.{HasFenFault};

use crate::faults::FenFault;
use crate::fen_form::read_fen_form;
use crate::items::Item;
use squares::{DPos, Dsq};
use std::alloc::Global;

// Whether two items share a square.
fn shares(item: &Item, other: &Item) -> bool
    ensures { result ≡ shares item.now other.now }
{
    item.from.number() <= other.to.number() && other.from.number() <= item.to.number()
}

fn shares_any(item: &Item, before: &[Item]) -> bool
    ensures { result ≡ list_any (shares item.now) before.now }
{
    before.iter().any(|other| shares(item, other))
}

// The offset of the first item that names an occupied square.
fn repeated(items: &[Item]) -> Option<usize>
    ensures { result ≡ repeated items.now }
{
    for (i, item) in items.iter().enumerate() {
        if shares_any(item, &items[..i]) {
            return Some(item.at);
        }
    }
    None
}

// Puts the item's piece on a square, if the item covers it.
fn put_on(item: &Item, position: &mut DPos, square: Dsq)
    ensures { position.new ≡ record position.old { board = put_on item.now position.old.board square } }
{
    if item.from.number() <= square.number() && square.number() <= item.to.number() {
        position.put(square, item.piece);
    }
}

// Puts the item's pieces on the board.
fn put_item(position: &mut DPos, item: &Item)
    ensures { position.new ≡ record position.old { board = put_item position.old.board item.now } }
{
    for square in &Dsq::all() {
        put_on(item, position, *square);
    }
}

// Puts the pieces of all items on the board.
fn put_items(position: &mut DPos, items: &[Item])
    ensures { position.new ≡ record position.old { board = fold put_item position.old.board items.now } }
{
    for item in items {
        put_item(position, item);
    }
}

/// Reads a position from a FEN text: the side to move, and the lists of White's and Black's pieces in either order,
/// such as `W:W28,K46:B7,8` or `B:B1-20:W31-50.`
///
/// # Errors
///
/// - `FenFault::BadText` for a syntax error, or for a square that is named twice.
/// - `FenFault::Memory` if out of memory.
pub fn read_fen(alloc: Global, text: &str) -> Result<DPos, FenFault>
    ensures read { IfOk result (λ position. IsFen text.now position) }
    ensures fault { IfErr result (λ fault. HasFenFault text.now fault) }
{
    let form = match read_fen_form(alloc, text.as_bytes()) {
        Ok(form) => form,
        Err(fault) => return Err(fault),
    };
    match repeated(form.items.as_slice()) {
        Some(at) => return Err(FenFault::BadText(at)),
        None => {}
    }
    let mut position = DPos::new(form.turn);
    put_items(&mut position, form.items.as_slice());
    Ok(position)
}
