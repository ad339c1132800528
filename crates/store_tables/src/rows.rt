//! One struct for the rows of each table.
//! Timestamps are Unix seconds (UTC); ids count from 1.

/// The only row of `meta`.
#[derive(Debug, PartialEq, Drop)]
pub struct MetaRow {
    /// Always 1.
    pub id: i64,
    /// The version of the schema: 1, 2 or 3.
    pub schema: i64,
    /// The timestamp of the last accepted command.
    pub last: i64,
}

/// A row of `members`.
#[derive(Debug, PartialEq, Drop)]
pub struct MemberRow {
    pub id: i64,
    pub name: String,
    /// The member's secret key.
    pub key: String,
}

/// A row of `events`: an event in which games are played.
#[derive(Debug, PartialEq, Drop)]
pub struct EventRow {
    pub id: i64,
    pub name: String,
    /// 0 draughts, 1 shogi.
    pub game: i64,
    /// The time budget of each player for the whole game, in seconds.
    pub budget: i64,
    /// The increment for each move, in seconds.
    pub increment: i64,
}

/// A row of `event_rules`: the rules of an event beside its time control.
#[derive(Debug, PartialEq, Drop)]
pub struct EventRuleRow {
    pub event: i64,
    /// 1 if a player may declare a win by entering king, else 0.
    pub declares: i64,
}

/// A row of `challenges`: a challenge of one member to another.
#[derive(Debug, PartialEq, Drop)]
pub struct ChallengeRow {
    /// The id of the challenger.
    pub member: i64,
    /// The number that the challenger gave the challenge.
    pub number: i64,
    pub event: i64,
    /// The id of the challenged member.
    pub other: i64,
    /// 1 if the challenger plays First, else 0.
    pub first: i64,
    /// 0 open, 1 withdrawn, 2 refused, 3 accepted.
    pub state: i64,
    /// The id of the game that an accepted challenge started.
    pub game: Option<i64>,
}

/// A row of `moves`: one ply of a game.
#[derive(Debug, PartialEq, Drop)]
pub struct MoveRow {
    pub game: i64,
    /// The number of the ply, from 1.
    pub ply: i64,
    /// The move in PDN (draughts) or USI (shogi) notation.
    pub text: String,
    pub moment: i64,
    /// The mover's remaining time after the move, in seconds.
    pub left: i64,
    /// The position after the move.
    pub position: String,
}

/// A row of `games`.
#[derive(Debug, PartialEq, Drop)]
pub struct GameTableRow {
    pub id: i64,
    /// The key under which the officer seated or imported the game.
    pub key: Option<String>,
    pub event: i64,
    /// The member who plays First.
    pub first: i64,
    /// The member who plays Second.
    pub second: i64,
    pub start: i64,
    /// The timestamp of the last ply, or the start if there is none.
    pub since: i64,
    /// The number of plies played.
    pub plies: i64,
    /// First's remaining time, in seconds.
    pub left1: i64,
    /// Second's remaining time, in seconds.
    pub left2: i64,
    /// The side that has offered a draw: 0 First, 1 Second. NULL if there is no open offer.
    pub offer_side: Option<i64>,
    /// The ply of the draw offer.
    pub offer_ply: Option<i64>,
    /// The name of the end, NULL while the game runs.
    pub end: Option<String>,
    /// First's and Second's points, as in `2-0`.
    pub result: Option<String>,
    /// The last position.
    pub position: String,
    /// The first number of the rules' track.
    pub track_a: i64,
    /// The second number of the rules' track.
    pub track_b: i64,
}

/// A row of `seen`: a position of a game with its repetition count.
#[derive(Debug, PartialEq, Drop)]
pub struct SeenRow {
    pub game: i64,
    pub position: String,
    /// The repetition count: how often the position occurred.
    pub count: i64,
    /// The ply after which it first occurred; 0 for the initial position.
    pub first_ply: i64,
}

/// A row of `scores`: a member's results against an opponent in the ended games of an event.
#[derive(Debug, PartialEq, Drop)]
pub struct ScoreRow {
    pub event: i64,
    pub member: i64,
    pub opponent: i64,
    /// 2 for each win, 1 for each draw.
    pub points: i64,
    pub wins: i64,
    pub draws: i64,
    pub losses: i64,
}

/// A row of `keys`: a later key of a member, beside the first one in `members`.
#[derive(Debug, PartialEq, Drop)]
pub struct KeyRow {
    pub member: i64,
    /// The number of the key among the member's later keys, from 1. The greatest is the present one.
    pub number: i64,
    /// The member's secret key.
    pub key: String,
}

/// A row of `rulings`: an arbiter's ruling in a game.
#[derive(Debug, PartialEq, Drop)]
pub struct RulingRow {
    pub game: i64,
    /// The number of the ruling in its game, from 1.
    pub number: i64,
    pub moment: i64,
    /// The number of plies that were played when the ruling was given.
    pub ply: i64,
    /// 0 grant to First, 1 grant to Second, 2 award, 3 void.
    pub kind: i64,
    /// The granted time, in seconds; 0 if the ruling is no grant.
    pub seconds: i64,
    /// First's and Second's awarded points, as in `2-0`; NULL if the ruling is no award.
    pub result: Option<String>,
    /// The name of the end before the first award or void of an ended game; NULL in all other rows.
    pub beneath: Option<String>,
    /// First's and Second's points at that end, as in `2-0`.
    pub beneath_result: Option<String>,
}

/// A row of `closings`: an event that is closed to challenges.
#[derive(Debug, PartialEq, Drop)]
pub struct ClosingRow {
    pub event: i64,
    pub moment: i64,
}

/// All rows of a club except rulings, moves, positions and scores. The rows of each table are in the order of its key.
#[derive(Debug, PartialEq, Drop)]
pub struct Rows {
    pub meta: MetaRow,
    pub members: Vec<MemberRow>,
    /// Empty unless the club has schema 3, as `closings` is.
    pub keys: Vec<KeyRow>,
    pub events: Vec<EventRow>,
    pub event_rules: Vec<EventRuleRow>,
    pub closings: Vec<ClosingRow>,
    pub challenges: Vec<ChallengeRow>,
    pub games: Vec<GameTableRow>,
}

/// Rows to upsert: each replaces the row of its table with the same key, if there is one.
#[derive(Debug, PartialEq, Drop)]
pub struct Changes {
    pub members: Vec<MemberRow>,
    pub events: Vec<EventRow>,
    pub event_rules: Vec<EventRuleRow>,
    pub challenges: Vec<ChallengeRow>,
    pub games: Vec<GameTableRow>,
    pub moves: Vec<MoveRow>,
    pub seen: Vec<SeenRow>,
    pub scores: Vec<ScoreRow>,
    /// Empty unless the club has schema 3, as `rulings` and `closings` are.
    pub keys: Vec<KeyRow>,
    pub rulings: Vec<RulingRow>,
    pub closings: Vec<ClosingRow>,
    /// The timestamp of the accepted command, in seconds; `None` if the row of `meta` stays.
    pub last: Option<i64>,
}
