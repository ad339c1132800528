//! The queries and their parameters.

ghost use Rattle.std.specs.Prelude.{◌≡◌};
ghost use Rattle.club_requests.specs.Questions.{is_arbiters};

use club_rules::GameKind;

/// Filter of a list of games.
#[derive(Clone, Copy, Debug, PartialEq, Eq)]
pub enum GameFilter {
    /// All games.
    All,
    /// Games that have not ended.
    Running,
    /// Games that a sweep at the time of the query would end.
    Overdue,
}

/// Filter of a list of games by event, player and state.
#[derive(Debug, Drop)]
pub struct Listing {
    /// Only games of the event with this name, if given.
    pub event: Option<String>,
    /// Only games of the member with this name, if given.
    pub member: Option<String>,
    /// Only games in this state.
    pub which: GameFilter,
}

/// Where the line of an analysis begins.
#[derive(Debug, Drop)]
pub enum AnalysisStart {
    /// The initial position of the game.
    Opening,
    /// The position of this text.
    Position(String),
    /// A game of the club, after this number of its plies.
    Game {
        /// The id of the game.
        game: u64,
        /// The number of its plies that are played before the moves to try.
        ply: u64,
    },
}

/// Moves that a member tries from a position, without any effect on a game.
#[derive(Debug, Drop)]
pub struct Analysis {
    /// The game whose rules hold.
    pub kind: GameKind,
    /// Where the line begins.
    pub start: AnalysisStart,
    /// The texts of the moves to try, in their order.
    pub moves: Vec<String>,
}

/// Rulings of one kind on many running games.
#[derive(Debug, Drop)]
pub enum BulkRuling {
    /// Each running game of a member in an event is void, or awarded to the opponent.
    Retire {
        /// The name of the member.
        member: String,
        /// The name of the event.
        event: String,
        /// Whether the member loses the games; otherwise they are void.
        is_loss: bool,
    },
    /// In each running game of an event First and then Second have more time.
    Extend {
        /// The name of the event.
        event: String,
        /// The seconds for each side.
        seconds: u64,
    },
}

/// A query to the club.
#[derive(Debug, Drop)]
pub enum Question {
    /// The legal moves of the game with this id, one per line.
    LegalMoves(u64),
    /// The cross table of the event with this name.
    CrossTable(String),
    /// The record of the game with this id, in the format of its kind.
    Record(u64),
    /// The members, one per line.
    Members,
    /// The events, one per line.
    Events,
    /// Games, one per line.
    Games(Listing),
    /// The challenges of all members, one per line.
    Challenges,
    /// The rulings on the game with this id, one per line.
    Rulings(u64),
    /// The commands that give these rulings, as lines of a batch.
    RulingOrders(BulkRuling),
    /// The names of the members, as JSON.
    MembersJson,
    /// The events with the numbers of their games, as JSON.
    EventsJson,
    /// Games, as JSON: those that `Games` lists, in the same order.
    GamesJson(Listing),
    /// The challenges of all members, as JSON.
    ChallengesJson,
    /// The rulings on the game with this id, as JSON.
    RulingsJson(u64),
    /// The running games and challenges of the member with this key, as JSON.
    MyGames(String),
    /// The ended games of the member with this key, as JSON.
    EndedGames(String),
    /// The events, and the members whom the member with this key may challenge, as JSON.
    ChallengeChoices(String),
    /// The games of the event with this name, as JSON.
    EventGames(String),
    /// The standings of the event with this name, as JSON.
    EventStandings(String),
    /// The clock of the game with this id, as JSON.
    GameClock(u64),
    /// The game with this id as members see it, as JSON.
    GameJson(u64),
    /// The game with this id, its clock and its legal moves, as JSON.
    GamePage(u64),
    /// The legal moves of the game with this id, as JSON.
    LegalMovesJson(u64),
    /// A game for a person to read: its players, clocks, board and moves.
    Board {
        /// The id of the game.
        game: u64,
        /// Print shogi pieces as letters instead of Japanese characters.
        letters: bool,
    },
    /// The records of all games of the event with this name, in the format of its kind.
    EventRecords(String),
    /// The position after moves that are tried, the legal moves there and the end, as JSON.
    Analysis(Analysis),
}

impl Question {
    /// Whether only a club with an arbiter answers the query: it prints rulings that can be given.
    pub fn is_arbiters(&self) -> bool
        ensures { result ≡ is_arbiters self.now }
    {
        match self {
            Question::RulingOrders(_) => true,
            _ => false,
        }
    }
}
