//! Parsing of numbers and delimiters from bytes.

ghost use Rattle.std.specs.Prelude.{◌≡◌, ◌≢◌, ◌<◌, ◌≤◌, ◌++◌, ◌^◌, ◌∷◌, ℕ, List, MatchOption, decimal, length};
ghost use Rattle.std.specs.Prelude.{slice_index};
ghost use Rattle.std.specs.Prelude.{true, false};
ghost use Rattle.control_socket.specs.internal.Reading.{IsCut, Lacks};

/// The bytes after a prefix, if they have it.
pub(crate) fn strip_prefix<'a>(bytes: &'a [u8], front: &[u8]) -> Option<&'a [u8]>
    ensures { MatchOption result ((rest : List ℕ) → bytes.now ≢ front.now ++ rest)
        (λ rest. bytes.now ≡ front.now ++ rest.now) }
{
    bytes.strip_prefix(front)
}

/// The bytes before and after the first `byte`.
pub(crate) fn split_once(bytes: &[u8], byte: u8) -> Option<(&[u8], &[u8])>
    ensures { MatchOption result (Lacks byte bytes.now)
        (λ parts. IsCut byte bytes.now parts.0.now parts.1.now) }
{
    for (at, found) in bytes.iter().enumerate() {
        if *found == byte {
            return Some((&bytes[..at], &bytes[at + 1..]));
        }
    }
    None
}

// Whether digits have a leading zero or a sign.
fn is_padded(digits: &[u8]) -> bool
    ensures padded { result ≡ true → slice_index digits.now 0 ≢ 43 →
        (slice_index digits.now 0 ≡ 48) × (1 < length digits.now) }
    ensures plain { result ≡ false → (slice_index digits.now 0 ≢ 43) ×
        (slice_index digits.now 0 ≡ 48 → length digits.now ≤ 1) }
{
    if digits.is_empty() {
        return false;
    }
    if digits[0] == b'+' {
        return true;
    }
    if digits[0] != b'0' {
        return false;
    }
    digits.len() > 1
}

/// Parses a decimal number without sign or leading zeros.
pub(crate) fn number_in(bytes: &[u8]) -> Option<u64>
    ensures { MatchOption result ((n : ℕ) → n < 2 ^ 64 → bytes.now ≢ decimal n)
        (λ n. (bytes.now ≡ decimal n) × (n < 2 ^ 64)) }
{
    if is_padded(bytes) {
        return None;
    }
    let text = match str::from_utf8(bytes) {
        Ok(text) => text,
        Err(_) => return None,
    };
    match text.parse::<u64>() {
        Ok(number) => Some(number),
        Err(_) => None,
    }
}

/// Parses the number before the first `byte`, which is no digit; returns the rest, too.
pub(crate) fn number_before(bytes: &[u8], byte: u8) -> Option<(u64, &[u8])>
    requires { byte < 48 }
    ensures { MatchOption result ((n : ℕ) (rest : List ℕ) → n < 2 ^ 64 → bytes.now ≢ decimal n ++ byte ∷ rest)
        (λ read. (bytes.now ≡ decimal read.0 ++ byte ∷ read.1.now) × (read.0 < 2 ^ 64)) }
{
    let (digits, rest) = match split_once(bytes, byte) {
        Some(parts) => parts,
        None => return None,
    };
    match number_in(digits) {
        Some(number) => Some((number, rest)),
        None => None,
    }
}
