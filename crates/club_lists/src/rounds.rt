//! The round of a game that a round robin seated, by its key.

ghost use Rattle.std.specs.Prelude.{◌≡◌, ◌≤◌, ℕ, List, Some, false, string_bytes};
ghost use Rattle.std.specs.Option.{option_map};
ghost use Rattle.club_lists.specs.Rounds.{end_after, is_digit, no_end, round_at, round_by, round_in, round_of};
ghost use Rattle.club_lists.specs.Rounds.{with_byte, with_digit};
ghost use Rattle.club_lists.specs.internal.Rounds.{ends_in_digit, round_key};

// The most rounds of a round robin, twice round with 32 members.
const MOST_ROUNDS: u32 = 62;

// The most boards of a round.
const MOST_BOARDS: u32 = 16;

// Digits in a row.
#[derive(Clone, Copy, Debug, PartialEq, Eq)]
pub(crate) enum Digits {
    Absent,
    Number(u32),
    // A leading zero, or a number above 69.
    Wrong,
}

// The digits before the last point of a text, and the digits behind it.
#[derive(Clone, Copy, Debug, PartialEq, Eq)]
pub(crate) struct KeyEnd {
    pub round: Digits,
    pub board: Digits,
}

fn is_digit(byte: u8) -> bool
    ensures { result ≡ is_digit byte }
{
    47 < byte && byte < 58
}

fn with_digit(digits: Digits, digit: u8) -> Digits
    requires { digit ≤ 9 }
    ensures { result ≡ with_digit digits digit }
{
    match digits {
        Digits::Absent => {
            if digit == 0 {
                Digits::Wrong
            } else {
                Digits::Number(u32::from(digit))
            }
        }
        Digits::Number(n) => {
            if 6 < n {
                Digits::Wrong
            } else {
                Digits::Number(10 * n + u32::from(digit))
            }
        }
        Digits::Wrong => Digits::Wrong,
    }
}

fn with_byte(end: KeyEnd, byte: u8) -> KeyEnd
    ensures { result ≡ with_byte end byte }
{
    if byte == b'.' {
        return KeyEnd {
            round: end.board,
            board: Digits::Absent,
        };
    }
    if is_digit(byte) {
        return KeyEnd {
            round: end.round,
            board: with_digit(end.board, byte - 48),
        };
    }
    KeyEnd {
        round: Digits::Absent,
        board: Digits::Absent,
    }
}

// The round of these numbers of a round and a board, if a round robin can have them.
fn round_by(round: Digits, board: Digits) -> Option<u32>
    ensures { result ≡ round_by round board }
{
    match round {
        Digits::Number(round) => match board {
            Digits::Number(board) => {
                if round <= MOST_ROUNDS && board <= MOST_BOARDS {
                    Some(round)
                } else {
                    None
                }
            }
            Digits::Absent => None,
            Digits::Wrong => None,
        },
        Digits::Absent => None,
        Digits::Wrong => None,
    }
}

/// The round of the game with this key, 1 to 62, if a round robin can have seated it: its key ends with the round, a
/// point and the board, 1 to 16, without leading zeros. Digits before the round belong to it.
pub fn round_of(key: &str) -> Option<u32>
    ensures { result ≡ round_of key.now }
{
    let mut end = KeyEnd {
        round: Digits::Absent,
        board: Digits::Absent,
    };
    for byte in key.as_bytes() {
        end = with_byte(end, *byte);
    }
    round_by(end.round, end.board)
}

/// The round of a game that may have a key.
pub(crate) fn round_in(key: &Option<String>) -> Option<u32>
    ensures { result ≡ round_in (option_map (λ key. string_bytes key) key.now) }
{
    match key {
        Some(key) => round_of(key.as_str()),
        None => None,
    }
}

/// Lemma: the key of each game of a round robin tells its round, if the prefix does not end in a digit.
pub fn keys_tell_rounds(round: u32, board: u32)
    requires round_from { 1 ≤ round }
    requires round_to { round ≤ 62 }
    requires board_from { 1 ≤ board }
    requires board_to { board ≤ 16 }
    ensures { (prefix : List ℕ) → ends_in_digit prefix ≡ false →
        round_of (round_key prefix round board) ≡ Some round }
{}
