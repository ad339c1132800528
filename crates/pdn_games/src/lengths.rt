//! The lengths in bytes of the square, move or move number at the front of a text; 0 if there is none.
ghost use Rattle.std.specs.Prelude.{◌≡◌, ◌+◌, ◌≤◌, ◌<◌, ◌^◌, length, drop};
ghost use Rattle.pdn.specs.SquareText as square_text;
ghost use Rattle.pdn_games.specs.Lengths.{both, either, with_second, plain_len, square_len, step_len, landing_len};
ghost use Rattle.pdn_games.specs.Lengths.{landings_len, tail_len, move_len, is_dot, digits_len, dots_len, number_len};

/// The text without its first `bytes` bytes.
pub fn skip_bytes(text: &[u8], bytes: usize) -> &[u8]
    requires { bytes ≤ length text.now }
    ensures { result.now ≡ drop bytes text.now }
{
    &text[bytes..]
}

// The length of two consecutive parts if both are present, else 0.
fn both(first: usize, second: usize) -> usize
    requires { first + second < 2 ^ 64 }
    ensures value { result ≡ both first second }
    ensures within { result ≤ first + second }
{
    if first == 0 {
        return 0;
    }
    if second == 0 {
        return 0;
    }
    first + second
}

// The length of the first of two alternatives that is present.
fn either(first: usize, second: usize) -> usize
    ensures { result ≡ either first second }
{
    if first == 0 {
        return second;
    }
    first
}

/// Whether a byte is a decimal digit.
pub fn is_digit(byte: u8) -> bool
    ensures { result ≡ square_text.is_digit byte }
{
    byte >= b'0' && byte <= b'9'
}

// The length, 1 or 2, of a square's number whose first digit is `first`.
fn with_second(first: u8, text: &[u8]) -> usize
    requires { first ≤ 9 }
    ensures value { result ≡ with_second first text.now }
    ensures within { result ≤ length text.now + 1 }
{
    match text {
        [c @ b'0'..=b'9', ..] if 10 * first + (*c - b'0') <= 50 => 2,
        _ => 1,
    }
}

// The length of a number from 1 to 50 without a leading 0.
fn plain_len(text: &[u8]) -> usize
    ensures value { result ≡ plain_len text.now }
    ensures within { result ≤ length text.now }
{
    match text {
        [c @ b'1'..=b'9', rest @ ..] => with_second(*c - b'0', rest),
        _ => 0,
    }
}

// The length of a square with at most one leading 0.
fn square_len(text: &[u8]) -> usize
    ensures value { result ≡ square_len text.now }
    ensures within { result ≤ length text.now }
{
    match text {
        [b'0', rest @ ..] => both(1, plain_len(rest)),
        _ => plain_len(text),
    }
}

// The length of a hyphen and a square.
fn step_len(text: &[u8]) -> usize
    ensures value { result ≡ step_len text.now }
    ensures within { result ≤ length text.now }
{
    match text {
        [b'-', rest @ ..] => both(1, square_len(rest)),
        _ => 0,
    }
}

// The length of an `x` or `:` and a square.
fn landing_len(text: &[u8]) -> usize
    ensures value { result ≡ landing_len text.now }
    ensures within { result ≤ length text.now }
{
    match text {
        [b'x' | b':', rest @ ..] => both(1, square_len(rest)),
        _ => 0,
    }
}

// The length of consecutive landings.
fn landings_len(text: &[u8]) -> usize
    ensures value { result ≡ landings_len text.now }
    ensures within { result ≤ length text.now }
{
    let mut passed = 0;
    for _ in 0..text.len() {
        let more = landing_len(skip_bytes(text, passed));
        if more == 0 {
            return passed;
        }
        passed += more;
    }
    passed
}

// The length of the rest of a move after its first square.
fn tail_len(text: &[u8]) -> usize
    ensures value { result ≡ tail_len text.now }
    ensures within { result ≤ length text.now }
{
    either(step_len(text), landings_len(text))
}

/// The length of a move: two squares separated by a hyphen, or a square and landings.
#[tactic(auto, unfolding(crate::specs::Lengths::move_len))]
pub fn move_len(text: &[u8]) -> usize
    ensures value { result ≡ move_len text.now }
    ensures within { result ≤ length text.now }
{
    let first = square_len(text);
    both(first, tail_len(skip_bytes(text, first)))
}

fn is_dot(byte: u8) -> bool
    ensures { result ≡ is_dot byte }
{
    byte == b'.'
}

/// The number of digits at the front of a text.
pub fn digits_len(text: &[u8]) -> usize
    ensures value { result ≡ digits_len text.now }
    ensures within { result ≤ length text.now }
{
    text.iter().take_while(|c| is_digit(**c)).count()
}

fn dots_len(text: &[u8]) -> usize
    ensures value { result ≡ dots_len text.now }
    ensures within { result ≤ length text.now }
{
    text.iter().take_while(|c| is_dot(**c)).count()
}

/// The length of a move number: digits, and one or more dots.
#[tactic(auto, unfolding(crate::specs::Lengths::number_len))]
pub fn number_len(text: &[u8]) -> usize
    ensures value { result ≡ number_len text.now }
    ensures within { result ≤ length text.now }
{
    let digits = digits_len(text);
    both(digits, dots_len(skip_bytes(text, digits)))
}
