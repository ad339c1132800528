//! The summary of a game, without its moves.

ghost use Rattle.std.specs.Prelude.{◌≡◌, ◌≤◌, ◌↔◌, IfOk, IsSome, IfSome, is_some, not, string_bytes};
ghost use Rattle.club_requests.specs.Limits.{last_moment};
ghost use Rattle.club_lists.specs.GameSummary.{deadline, is_late, is_over, is_void, left_in, over_text};
ghost use Rattle.club_lists.specs.internal.SummaryViews.{over_by, summary_of};

use clocks::{Clock, Moment};
use squares::Side;
use std::alloc::{AllocError, Global};

/// The end of a game.
#[derive(Debug, Drop)]
pub struct GameOver {
    /// The name of the end.
    pub end: String,
    /// The scores of First and Second, as in `2-0`. `None` for a void game.
    pub result: Option<String>,
}

impl GameOver {
    /// The name of the end, and the scores behind it unless the game is void.
    ///
    /// # Errors
    ///
    /// `AllocError` if out of memory.
    pub(crate) fn text(&self, alloc: Global) -> Result<String, AllocError>
        ensures { IfOk result (λ text. string_bytes text ≡ over_text (over_by self.now)) }
    {
        let end = self.end.as_str();
        match &self.result {
            Some(result) => {
                let result = result.as_str();
                format!(in alloc; "{end} {result}")
            }
            None => String::from_str(alloc, end),
        }
    }

    // Whether the game does not count.
    fn is_void(&self) -> bool
        ensures { result ≡ not (is_some (over_by self.now).result) }
    {
        match &self.result {
            Some(_) => false,
            None => true,
        }
    }
}

/// The summary of a game, without its moves. The event and the players are ids.
#[derive(Debug, Drop)]
pub struct GameEntry {
    pub id: u32,
    pub event: u32,
    pub first: u32,
    pub second: u32,
    /// `None` if a challenge started the game.
    pub key: Option<String>,
    /// The number of plies played.
    pub plies: u32,
    /// The side to move.
    pub turn: Side,
    /// The seconds that First had left after its last move.
    pub left_first: u64,
    /// The seconds that Second had left after its last move.
    pub left_second: u64,
    /// The timestamp of the last move, or of the start.
    pub since: Moment,
    /// The side that has made a draw offer that is still valid.
    pub offer: Option<Side>,
    /// `None` while the game is running.
    pub over: Option<GameOver>,
}

/// A running game, with its last move and its position.
#[derive(Debug, Drop)]
pub struct RunningGame {
    pub entry: GameEntry,
    /// The text of the last move; `None` before the first.
    pub last: Option<String>,
    /// The position in the notation of the game.
    pub position: String,
}

impl GameEntry {
    /// The seconds that the side to move had left after its last move.
    pub fn seconds_left(&self) -> u64
        ensures { result ≡ left_in (summary_of self.now) }
    {
        match self.turn {
            Side::First => self.left_first,
            Side::Second => self.left_second,
        }
    }

    /// The last Unix second in which a move is in time. `None` if it is beyond `Moment::LAST`.
    pub fn deadline(&self) -> Option<Moment>
        ensures some { IsSome result ↔ (deadline (summary_of self.now) ≤ last_moment) }
        ensures value { IfSome result (λ at. at ≡ deadline (summary_of self.now)) }
    {
        let left = self.seconds_left();
        let _within = self.since.seconds();
        if left > Moment::LAST {
            return None;
        }
        let clock = Clock { left, increment: 0 };
        Moment::new(clock.deadline(self.since))
    }

    /// Whether the game has ended.
    pub fn is_over(&self) -> bool
        ensures { result ≡ is_over (summary_of self.now) }
    {
        self.over.is_some()
    }

    /// Whether the game has ended and does not count.
    pub fn is_void(&self) -> bool
        ensures { result ≡ is_void (summary_of self.now) }
    {
        match &self.over {
            Some(over) => over.is_void(),
            None => false,
        }
    }

    /// Whether the game is running and the side to move has exceeded the time limit at this timestamp.
    pub fn is_late(&self, moment: Moment) -> bool
        ensures { result ≡ is_late moment (summary_of self.now) }
    {
        if self.is_over() {
            return false;
        }
        self.seconds_left() < moment.seconds().saturating_sub(self.since.seconds())
    }
}
