//! Parser of the form of a move's text, without regard to a position.
ghost use Rattle.std.specs.Prelude.{◌≡◌, ◌-◌, ◌≤◌, IfOk, IfErr, MatchOption, Ok, Some, None, length};
ghost use Rattle.pdn.specs.SquareText.{read_square};
ghost use Rattle.pdn.specs.Forms.{read_landings, quiet_of, capture_of, read_form};
ghost use Rattle.pdn.specs.internal.Forms.{past_hyphen, past_cross};
ghost use Rattle.pdn.specs.internal.ReadForms.{form_of, IsBadForm};

use crate::faults::MoveFault;
use crate::squares_text::read_square;
use squares::Dsq;
use std::alloc::Global;

/// The squares that the text of a move names.
#[derive(Drop)]
pub enum Form {
    /// The two squares of a quiet move (one that captures nothing).
    Quiet {
        from: Dsq,
        to: Dsq,
    },
    /// The origin of a capture, landing squares on its way, and its destination.
    Capture {
        from: Dsq,
        middle: Vec<Dsq>,
        to: Dsq,
    },
}

// Parses the second square of a quiet move; `total` is the length of the whole text in bytes.
fn read_quiet(from: Dsq, total: usize, text: &[u8]) -> Result<Form, MoveFault>
    requires { length text.now ≤ total }
    ensures form { IfOk result
        (λ form. quiet_of from (total - length text.now) total (read_square text.now)
        ≡ Ok (form_of form)) }
    ensures fault { IfErr result
        (λ fault. IsBadForm (quiet_of from (total - length text.now) total (read_square text.now)) fault) }
{
    let front = match read_square(text) {
        Ok(front) => front,
        Err(bytes) => return Err(MoveFault::BadText(total - text.len() + bytes)),
    };
    if front.rest.len() > 0 {
        return Err(MoveFault::BadText(total - front.rest.len()));
    }
    Ok(Form::Quiet {
        from,
        to: front.square,
    })
}

// The rest of the text after a hyphen, if it begins with one.
fn past_hyphen(text: &[u8]) -> Option<&[u8]>
    ensures { MatchOption result
        (past_hyphen text.now ≡ None) (λ rest. past_hyphen text.now ≡ Some rest.now) }
{
    match text {
        [b'-', rest @ ..] => Some(rest),
        _ => None,
    }
}

// The rest of the text after an `x` or a `:`, if it begins with one.
fn past_cross(text: &[u8]) -> Option<&[u8]>
    ensures { MatchOption result
        (past_cross text.now ≡ None) (λ rest. past_cross text.now ≡ Some rest.now) }
{
    match text {
        [b'x', rest @ ..] => Some(rest),
        [b':', rest @ ..] => Some(rest),
        _ => None,
    }
}

// Parses the landing squares of a capture; `total` is the length of the whole text in bytes.
fn read_capture(alloc: Global, from: Dsq, total: usize, text: &[u8]) -> Result<Form, MoveFault>
    requires { length text.now ≤ total }
    ensures form { IfOk result
        (λ form. capture_of from (total - length text.now) (read_landings text.now)
        ≡ Ok (form_of form)) }
    ensures fault { IfErr result
        (λ fault. IsBadForm (capture_of from (total - length text.now) (read_landings text.now)) fault) }
{
    let mut middle = Vec::new(alloc);
    let mut rest = text;
    loop {
        let front = match read_square(rest) {
            Ok(front) => front,
            Err(bytes) => return Err(MoveFault::BadText(total - rest.len() + bytes)),
        };
        if front.rest.len() == 0 {
            return Ok(Form::Capture {
                from,
                middle,
                to: front.square,
            });
        }
        match past_cross(front.rest) {
            Some(more) => {
                middle.push(front.square)?;
                rest = more;
            }
            None => return Err(MoveFault::BadText(total - front.rest.len())),
        }
    }
}

/// Parses the form of a move's text.
///
/// # Errors
///
/// `MoveFault::Memory` if out of memory; `MoveFault::BadText` for a syntax error.
pub fn read_form(alloc: Global, text: &[u8]) -> Result<Form, MoveFault>
    ensures form { IfOk result (λ form. read_form text.now ≡ Ok (form_of form)) }
    ensures fault { IfErr result (λ fault. IsBadForm (read_form text.now) fault) }
{
    let total = text.len();
    let front = match read_square(text) {
        Ok(front) => front,
        Err(bytes) => return Err(MoveFault::BadText(bytes)),
    };
    match past_hyphen(front.rest) {
        Some(rest) => return read_quiet(front.square, total, rest),
        None => {}
    }
    match past_cross(front.rest) {
        Some(rest) => read_capture(alloc, front.square, total, rest),
        None => Err(MoveFault::BadText(total - front.rest.len())),
    }
}
