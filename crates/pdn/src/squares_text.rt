//! The texts of squares.
ghost use Rattle.std.specs.Prelude.{◌≡◌, ◌+◌, ◌-◌, ◌<◌, ◌≤◌, ◌++◌, IfOk, IfErr, OnOk, Ok, Err, length, string_bytes};
ghost use Rattle.pdn.specs.SquareText.{square_text, read_second, read_number, read_square};

use squares::Dsq;
use std::alloc::AllocError;

/// Appends a square's number in decimal.
///
/// # Errors
///
/// `AllocError` if out of memory.
pub fn push_square(text: &mut String, square: Dsq) -> Result<(), AllocError>
    ensures { OnOk result (string_bytes text.new ≡ string_bytes text.old ++ square_text square) }
{
    let number = square.number();
    if number >= 10 {
        text.push((b'0' + number / 10) as char)?;
    }
    text.push((b'0' + number % 10) as char)?;
    Ok(())
}

/// A square read from the front of a text, with the rest of the text.
#[derive(Clone, Copy)]
pub struct SquareFront<'a> {
    pub square: Dsq,
    pub rest: &'a [u8],
}

// Reads the optional second digit of a square's number, which must not exceed 50.
fn read_second(first: u8, text: &[u8]) -> (u8, &[u8])
    requires { (1 ≤ first) × (first ≤ 9) }
    ensures value { read_second first text.now ≡ Ok (record { square = result.0; rest = result.1.now }) }
    ensures range { (1 ≤ result.0) × (result.0 ≤ 50) }
{
    match text {
        [c @ b'0'..=b'9', rest @ ..] if 10 * first + (*c - b'0') <= 50 => {
            (10 * first + (*c - b'0'), rest)
        }
        _ => (first, text),
    }
}

// Reads a number from 1 to 50 without a leading 0; the error is the number of bytes that can begin one.
fn read_number(text: &[u8]) -> Result<SquareFront<'_>, usize>
    ensures front { IfOk result
        (λ front. read_number text.now ≡ Ok
        (record { square = front.square; rest = front.rest.now })) }
    ensures rest { IfOk result (λ front. length front.rest.now < length text.now) }
    ensures bytes { IfErr result (λ bytes. read_number text.now ≡ Err bytes) }
    ensures none { IfErr result (λ bytes. bytes ≡ 0) }
{
    match text {
        [c @ b'1'..=b'9', rest @ ..] => {
            let (number, rest) = read_second(*c - b'0', rest);
            match Dsq::new(number) {
                Some(square) => Ok(SquareFront { square, rest }),
                None => unreachable!(),
            }
        }
        _ => Err(0),
    }
}

/// Reads a square's number with at most one leading 0.
///
/// # Errors
///
/// The number of bytes, 0 or 1, that can begin a square's number.
pub fn read_square(text: &[u8]) -> Result<SquareFront<'_>, usize>
    ensures front { IfOk result
        (λ front. read_square text.now ≡ Ok
        (record { square = front.square; rest = front.rest.now })) }
    ensures rest { IfOk result (λ front. length front.rest.now < length text.now) }
    ensures bytes { IfErr result (λ bytes. read_square text.now ≡ Err bytes) }
    ensures within { IfErr result (λ bytes. bytes ≤ length text.now) }
{
    match text {
        [b'0', rest @ ..] => match read_number(rest) {
            Ok(front) => Ok(front),
            Err(bytes) => Err(bytes + 1),
        },
        _ => read_number(text),
    }
}
