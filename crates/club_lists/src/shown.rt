//! The view of a game that members see.
ghost use Rattle.std.specs.Prelude.{◌≡◌};
ghost use Rattle.club_lists.specs.GameShown.{end_name};

use club_core::GameEnd;
use club_rules::EndName;
use squares::Score;

/// A game as any member may see it: event and players by name, moves and position in notation, and the seconds that
/// each side has left.
#[derive(Drop)]
pub struct GameShown {
    pub event: String,
    pub first: String,
    pub second: String,
    pub moves: Vec<String>,
    pub position: String,
    pub left_first: u64,
    pub left_second: u64,
    /// The name of the member who has made a draw offer that is still valid.
    pub offer: Option<String>,
    pub end: Option<GameEnd<EndName>>,
    /// `None` while the game is running, and for a void game.
    pub result: Option<Score>,
}

/// The name of an end, as it is printed and stored, without its side.
pub fn end_name(end: GameEnd<EndName>) -> &'static str
    ensures { result.now ≡ end_name end }
{
    match end {
        GameEnd::Rule(end) => end.name(),
        GameEnd::Verdict(verdict) => verdict.name(),
        GameEnd::Outside(end) => end.name(),
    }
}
