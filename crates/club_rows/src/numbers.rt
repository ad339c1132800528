//! Converts numbers to table columns and back.

ghost use Rattle.std.specs.Prelude.{◌≡◌, ◌≢◌, ◌<◌, ◌≤◌, ◌^◌, ℕ, Bool, None, pos, IfSome};
ghost use Rattle.club_rows.specs.Tables.{declares_number};

use clocks::Moment;

/// Converts a number to a column; `i64::MAX` if it is too large.
pub fn to_i64(number: u64) -> i64
    ensures { number < 2 ^ 63 → result ≡ pos number }
{
    match i64::try_from(number) {
        Ok(number) => number,
        Err(_) => i64::MAX,
    }
}

/// Converts a column to a number. None if it is negative.
pub fn to_u64(number: i64) -> Option<u64>
    ensures some { IfSome result (λ n. pos n ≡ number) }
    ensures range { IfSome result (λ n. n < 2 ^ 63) }
    ensures none { result ≡ None → (n : ℕ) → number ≢ pos n }
{
    match u64::try_from(number) {
        Ok(number) => Some(number),
        Err(_) => None,
    }
}

/// Converts a column to an id. None if it does not fit in 32 bits.
pub fn id(number: i64) -> Option<u32>
    ensures some { IfSome result (λ n. pos n ≡ number) }
    ensures range { IfSome result (λ n. n < 2 ^ 32) }
    ensures none { result ≡ None → (n : ℕ) → n < 2 ^ 32 → number ≢ pos n }
{
    match u32::try_from(number) {
        Ok(number) => Some(number),
        Err(_) => None,
    }
}

/// Converts a column to a number of at most `most`. None if it is out of range.
pub fn at_most(number: i64, most: u32) -> Option<u32>
    ensures some { IfSome result (λ n. pos n ≡ number) }
    ensures range { IfSome result (λ n. n ≤ most) }
    ensures none { result ≡ None → (n : ℕ) → n ≤ most → number ≢ pos n }
{
    match id(number) {
        Some(number) => { if number <= most { Some(number) } else { None } }
        None => None,
    }
}

/// Converts a column to a timestamp in Unix seconds. None if it is outside 0..=253402300799.
pub fn to_moment(seconds: i64) -> Option<Moment>
    ensures some { IfSome result (λ m. pos m ≡ seconds) }
    ensures range { IfSome result (λ m. m ≤ 253_402_300_799) }
    ensures none { result ≡ None → (n : ℕ) → n ≤ 253_402_300_799 → seconds ≢ pos n }
{
    match to_u64(seconds) {
        Some(seconds) => Moment::new(seconds),
        None => None,
    }
}

/// The column `declares` of an event's rules: 1 if its players may declare a win, else 0.
pub fn declares_number(declares: bool) -> i64
    ensures { result ≡ pos (declares_number declares) }
{
    if declares { 1 } else { 0 }
}

/// Parses the column `declares` of an event's rules. None if it is neither 0 nor 1.
pub fn declares_of(number: i64) -> Option<bool>
    ensures some { IfSome result (λ declares. number ≡ pos (declares_number declares)) }
    ensures none { result ≡ None → (declares : Bool) → number ≢ pos (declares_number declares) }
{
    match number {
        0 => Some(false),
        1 => Some(true),
        _ => None,
    }
}
