//! Timestamps as text.

ghost use Rattle.std.specs.Prelude.{◌≡◌, ◌++◌, OnOk, IfOk, string_bytes};
ghost use Rattle.club_lists.specs.Dates.{two_digits, date_text, IsDate};

use clocks::{CivilTime, Moment, civil};
use std::alloc::{AllocError, Global};

// Appends the last two digits of a number.
fn push_two(text: &mut String, number: u16) -> Result<(), AllocError>
    ensures { OnOk result (string_bytes text.new ≡ string_bytes text.old ++ two_digits number) }
{
    text.push((b'0' + (number / 10 % 10) as u8) as char)?;
    text.push((b'0' + (number % 10) as u8) as char)?;
    Ok(())
}

// Appends a separator and two digits.
fn push_next(text: &mut String, mark: &str, number: u8) -> Result<(), AllocError>
    ensures { OnOk result (string_bytes text.new ≡ string_bytes text.old ++ (mark.now ++ two_digits number)) }
{
    text.push_str(mark)?;
    push_two(text, u16::from(number))?;
    Ok(())
}

// A date and time in the format `2026-11-27T08:25:00Z`.
fn date_of(alloc: Global, at: &CivilTime) -> Result<String, AllocError>
    ensures { IfOk result (λ text. string_bytes text ≡ date_text at.now) }
{
    let mut text = String::new(alloc);
    let year = at.year.unsigned_abs();
    push_two(&mut text, year / 100)?;
    push_two(&mut text, year)?;
    push_next(&mut text, "-", at.month)?;
    push_next(&mut text, "-", at.day)?;
    push_next(&mut text, "T", at.hour)?;
    push_next(&mut text, ":", at.minute)?;
    push_next(&mut text, ":", at.second)?;
    text.push_str("Z")?;
    Ok(text)
}

/// The date and time of a timestamp in UTC, in the format `2026-11-27T08:25:00Z`.
///
/// # Errors
///
/// `AllocError` if out of memory.
pub fn date_text(alloc: Global, moment: Moment) -> Result<String, AllocError>
    ensures { IfOk result (λ text. IsDate moment (string_bytes text)) }
{
    let at = civil(moment);
    date_of(alloc, &at)
}
