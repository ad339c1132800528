//! Limits of the club's values, and the checks for them.

ghost use Rattle.std.specs.Prelude.{◌≡◌};
ghost use Rattle.std.specs.Char.{is_ascii_alphanumeric};
ghost use Rattle.std.specs.List.{list_all};
ghost use Rattle.club_requests.specs.Limits.{is_name, is_name_byte, is_member_key, is_challenge_number, is_budget};
ghost use Rattle.club_requests.specs.Limits.{is_increment, is_grant_time};

/// The maximum number of members of a club.
pub const MOST_MEMBERS: usize = 200;

/// The maximum number of events of a club.
pub const MOST_EVENTS: usize = 50;

/// The maximum number of games of a club.
pub const MOST_GAMES: u32 = 5000;

/// The maximum number of plies of a game.
pub const MOST_PLIES: u32 = 600;

/// The maximum length of a move's text, in bytes.
pub const MOST_TEXT_BYTES: usize = 200;

/// The maximum number of moves that an analysis tries.
pub const MOST_TRIED_MOVES: usize = 64;

/// The maximum length of a text of records, in bytes.
pub const MOST_RECORD_BYTES: usize = 65_536;

/// The greatest number of a challenge.
pub const GREATEST_CHALLENGE: u64 = 9_999;

/// The maximum number of keys that a member is given after the first one.
pub const MOST_KEYS: usize = 99;

/// The maximum number of rulings on a game.
pub const MOST_RULINGS: u32 = 99;

/// The longest time that a ruling grants, in seconds: 365 days.
pub const LONGEST_GRANT: u64 = 31_536_000;

/// The maximum budget, in seconds: 365 days.
pub const LONGEST_BUDGET: u64 = 31_536_000;

/// The maximum increment, in seconds: 30 days.
pub const GREATEST_INCREMENT: u64 = 2_592_000;

/// Whether a text is a valid name of a member or event, or key of a game: 1 to 24 ASCII letters, digits, `.`, `_` and
/// `-`.
pub fn is_name(text: &str) -> bool
    ensures { result ≡ is_name text.now }
{
    1 <= text.len() && text.len() <= 24 && has_name_bytes(text.as_bytes())
}

fn is_name_byte(c: u8) -> bool
    ensures { result ≡ is_name_byte c }
{
    c.is_ascii_alphanumeric() || c == b'.' || c == b'_' || c == b'-'
}

fn has_name_bytes(bytes: &[u8]) -> bool
    ensures { result ≡ list_all is_name_byte bytes.now }
{
    bytes.iter().all(|c| is_name_byte(*c))
}

fn has_key_bytes(bytes: &[u8]) -> bool
    ensures { result ≡ list_all is_ascii_alphanumeric bytes.now }
{
    bytes.iter().all(|c| c.is_ascii_alphanumeric())
}

/// Whether a text is a valid key of a member: 8 to 64 ASCII letters and digits.
pub fn is_member_key(text: &str) -> bool
    ensures { result ≡ is_member_key text.now }
{
    8 <= text.len() && text.len() <= 64 && has_key_bytes(text.as_bytes())
}

/// Whether a challenge may have this number: 1 to `GREATEST_CHALLENGE`.
pub fn is_challenge_number(number: u64) -> bool
    ensures { result ≡ is_challenge_number number }
{
    1 <= number && number <= GREATEST_CHALLENGE
}

/// Whether a budget is valid: 1 to `LONGEST_BUDGET` seconds.
pub fn is_budget(seconds: u64) -> bool
    ensures { result ≡ is_budget seconds }
{
    1 <= seconds && seconds <= LONGEST_BUDGET
}

/// Whether an increment is valid: 0 to `GREATEST_INCREMENT` seconds.
pub fn is_increment(seconds: u64) -> bool
    ensures { result ≡ is_increment seconds }
{
    seconds <= GREATEST_INCREMENT
}

/// Whether a ruling may grant this time: 1 to `LONGEST_GRANT` seconds.
pub fn is_grant_time(seconds: u64) -> bool
    ensures { result ≡ is_grant_time seconds }
{
    1 <= seconds && seconds <= LONGEST_GRANT
}
