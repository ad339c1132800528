//! Counting of leaf nodes.

ghost use Rattle.std.specs.Prelude.{◌≡◌, ◌+◌, IfOk, OnOk};
ghost use Rattle.std.specs.Io.KnownBytes.{Appends};
ghost use Rattle.perft.specs.internal.Lines.{HasLines, IsPrinted, count_line, total_line};

use crate::fault::PerftFault;
use crate::game::Game;
use std::alloc::Global;
use std::io::Write;

// The sum, unless it overflows 64 bits.
fn plus(a: u64, b: u64) -> Result<u64, PerftFault>
    ensures { IfOk result (λ sum. sum ≡ a + b) }
{
    match a.checked_add(b) {
        Some(sum) => Ok(sum),
        None => Err(PerftFault::TooMany),
    }
}

/// The number of leaf nodes of the position's move tree at a depth, in plies; 1 at depth 0.
///
/// # Errors
///
/// `PerftFault::TooMany` if the count overflows 64 bits; `PerftFault::Memory` if out of memory.
pub fn leaves<G: Game>(alloc: Global, position: &G::Position, depth: u32) -> Result<u64, PerftFault>
    ensures { IfOk result (λ count. HasLines G.Legal G.order G.after depth position.now count) }
{
    if depth == 0 {
        return Ok(1);
    }
    if depth == 1 {
        return G::count(alloc, position);
    }
    let moves = G::legal(alloc, position)?;
    let mut count: u64 = 0;
    for played in &moves {
        let next = G::play(position, played);
        let under = leaves::<G>(alloc, &next, depth - 1)?;
        count = plus(count, under)?;
    }
    Ok(count)
}

// Prints a move and its leaf count.
fn print_count<W: Write>(
    alloc: Global,
    text: &str,
    count: u64,
    out: &mut W,
) -> Result<(), PerftFault>
    ensures { OnOk result (Appends (W.contents out.old) (W.contents out.new) (count_line text.now count)) }
{
    let line = format!(in alloc; "{text} {count}\n")?;
    out.write_all(line.as_bytes())?;
    Ok(())
}

// Prints the total leaf count.
fn print_total<W: Write>(alloc: Global, total: u64, out: &mut W) -> Result<(), PerftFault>
    ensures { OnOk result (Appends (W.contents out.old) (W.contents out.new) (total_line total)) }
{
    let line = format!(in alloc; "total {total}\n")?;
    out.write_all(line.as_bytes())?;
    Ok(())
}

/// Prints the leaf count under each legal move, in move order, and then the total. `depth` includes that move and is at
/// least 1.
///
/// # Errors
///
/// `PerftFault::TooMany` if a count overflows 64 bits; `PerftFault::Memory` if out of memory; `PerftFault::Output` if
/// the output fails.
pub fn print_counts<G: Game, W: Write>(
    alloc: Global,
    position: &G::Position,
    depth: u32,
    out: &mut W,
) -> Result<(), PerftFault>
    ensures { OnOk result
        (IsPrinted G.Legal G.order G.after G.Writes depth position.now (W.contents out.old) (W.contents out.new)) }
{
    let moves = G::legal(alloc, position)?;
    let mut total: u64 = 0;
    for played in &moves {
        let text = G::write_move(alloc, position, played)?;
        let next = G::play(position, played);
        let count = leaves::<G>(alloc, &next, depth.saturating_sub(1))?;
        total = plus(total, count)?;
        print_count(alloc, text.as_str(), count, out)?;
    }
    print_total(alloc, total, out)
}
