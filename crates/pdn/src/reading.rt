//! Reader of moves.
ghost use Rattle.std.specs.Prelude.{◌≡◌, ◌↔◌, IfOk, IfErr, IsTrue};
ghost use Rattle.pdn.specs.Forms.{quiet, capture};
ghost use Rattle.pdn.specs.Choice.{same_move};
ghost use Rattle.pdn.specs.internal.Choice.{IsChoice, IsChoiceFault, Joins, Parts};
ghost use Rattle.pdn.specs.ReadMove.{Fits, NoneFits, StandsFor, IsRefused, IsRead, HasReadFault};
ghost use Rattle.pdn.specs.internal.ReadMove.{IsFormFault};

use crate::faults::MoveFault;
use crate::forms::{Form, read_form};
use crate::passing::some_passes;
use crate::reaching::some_fits;
use draughts_moves::{Illegal, Memory, check, legal, routes};
use squares::{DMove, DPos, DSet, Dsq};
use std::alloc::Global;

// The legal quiet move between two squares.
fn read_quiet(position: &DPos, from: Dsq, to: Dsq) -> Result<DMove, MoveFault>
    ensures read { IfOk result (λ m. StandsFor position.now (quiet from to) m) }
    ensures fault { IfErr result (λ fault. IsFormFault position.now (quiet from to) fault) }
{
    let named = DMove {
        from,
        to,
        taken: DSet::new(),
    };
    match check(position, &named) {
        Ok(()) => Ok(named),
        Err(cause) => Err(MoveFault::Illegal(cause)),
    }
}

// Whether a move matches the squares that a text names.
fn fits(
    alloc: Global,
    position: &DPos,
    from: Dsq,
    middle: &[Dsq],
    to: Dsq,
    played: &DMove,
) -> Result<bool, Memory>
    ensures { IfOk result (λ fits. IsTrue fits ↔ Fits position.now from middle.now to played.now) }
{
    if played.from != from {
        return Ok(false);
    }
    if played.to != to {
        return Ok(false);
    }
    let found = routes(alloc, position, played)?;
    Ok(some_passes(middle, found.as_slice()))
}

fn is_same(a: &DMove, b: &DMove) -> bool
    ensures { result ≡ same_move a.now b.now }
{
    a == b
}

// The choice after one more matching move; `Ambiguous` if it differs from the choice so far.
fn joined(choice: Option<DMove>, played: &DMove) -> Result<DMove, MoveFault>
    ensures ok { IfOk result (λ m. Joins choice played.now m) }
    ensures err { IfErr result (λ fault. Parts choice played.now fault) }
{
    match choice {
        None => Ok(*played),
        Some(other) => {
            if is_same(&other, played) {
                return Ok(other);
            }
            Err(MoveFault::Ambiguous)
        }
    }
}

// The only one of the moves that matches the squares of a text, if any matches.
fn choose(
    alloc: Global,
    position: &DPos,
    from: Dsq,
    middle: &[Dsq],
    to: Dsq,
    moves: &[DMove],
) -> Result<Option<DMove>, MoveFault>
    ensures choice { IfOk result
        (λ choice. IsChoice (Fits position.now from middle.now to) moves.now choice) }
    ensures fault { IfErr result
        (λ fault. IsChoiceFault (Fits position.now from middle.now to) moves.now fault) }
{
    let mut choice = None;
    for played in moves {
        if fits(alloc, position, from, middle, to, played)? {
            match joined(choice, played) {
                Ok(m) => choice = Some(m),
                Err(fault) => return Err(fault),
            }
        }
    }
    Ok(choice)
}

// The reason for the refusal of a capture that matches no legal move.
fn cause_of(position: &DPos, from: Dsq, middle: &[Dsq], to: Dsq) -> Illegal
    requires { NoneFits position.now from middle.now to }
    ensures { IsRefused position.now (capture from middle.now to) result }
{
    if some_fits(position, from, middle, to) {
        return Illegal::NotLongest;
    }
    Illegal::NoSuchMove
}

// The legal capture that matches the squares of a text.
fn read_capture(
    alloc: Global,
    position: &DPos,
    from: Dsq,
    middle: &[Dsq],
    to: Dsq,
) -> Result<DMove, MoveFault>
    ensures read { IfOk result (λ m. StandsFor position.now (capture from middle.now to) m) }
    ensures fault { IfErr result
        (λ fault. IsFormFault position.now (capture from middle.now to) fault) }
{
    let moves = legal(alloc, position)?;
    let choice = match choose(alloc, position, from, middle, to, moves.as_slice()) {
        Ok(choice) => choice,
        Err(fault) => return Err(fault),
    };
    match choice {
        Some(m) => Ok(m),
        None => Err(MoveFault::Illegal(cause_of(position, from, middle, to))),
    }
}

/// Reads the legal move that a text denotes in a position: `32-28` for a quiet move, `28x19` for a capture, with any
/// further landing squares in between. A square may have one leading `0`; `:` may stand for `x`.
///
/// # Errors
///
/// - `MoveFault::BadText` for a syntax error.
/// - `MoveFault::Ambiguous` if two or more legal captures match.
/// - `MoveFault::Illegal` if no legal move matches.
/// - `MoveFault::Memory` if out of memory.
pub fn read_move(alloc: Global, position: &DPos, text: &str) -> Result<DMove, MoveFault>
    ensures read { IfOk result (λ m. IsRead position.now text.now m) }
    ensures fault { IfErr result (λ fault. HasReadFault position.now text.now fault) }
{
    let form = match read_form(alloc, text.as_bytes()) {
        Ok(form) => form,
        Err(fault) => return Err(fault),
    };
    match form {
        Form::Quiet { from, to } => read_quiet(position, from, to),
        Form::Capture { from, middle, to } => {
            read_capture(alloc, position, from, middle.as_slice(), to)
        }
    }
}
