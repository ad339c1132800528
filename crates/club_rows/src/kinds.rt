//! Kinds of games as numbers in the tables.

ghost use Rattle.std.specs.Prelude.{◌≡◌, ◌≢◌, pos, None, IfSome};
ghost use Rattle.club_rules.specs.declared.names.GameKind as games;
ghost use Rattle.club_rows.specs.Tables.{kind_number};

use club_rules::GameKind;

/// The number of a kind of game: 0 draughts, 1 shogi.
pub fn kind_number(game: GameKind) -> i64
    ensures { result ≡ pos (kind_number game) }
{
    match game {
        GameKind::Draughts => 0,
        GameKind::Shogi => 1,
    }
}

/// The kind of game with this number. None if there is none.
pub fn kind_of(number: i64) -> Option<GameKind>
    ensures some { IfSome result (λ game. number ≡ pos (kind_number game)) }
    ensures none { result ≡ None → (game : games.GameKind) → number ≢ pos (kind_number game) }
{
    match number {
        0 => Some(GameKind::Draughts),
        1 => Some(GameKind::Shogi),
        _ => None,
    }
}
